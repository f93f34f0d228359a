// A record past the last crossing: all zero (document 01, "What the plant holds").
#![tactic(auto)]

ghost use Rattle.std.specs.Prelude.{◌≡◌};
ghost use Rattle.machine.specs.Range.{crossing_zero};

use machine::Crossing;

// A record past the last crossing: all zero.
pub fn crossing_zero(c: Crossing) -> bool
    ensures { result ≡ crossing_zero c }
{
    c == Crossing::default()
}
