// Normal position and secured (document 01, "What the plant holds").
#![tactic(auto)]

ghost use Rattle.std.specs.Prelude.{◌≡◌};
ghost use Rattle.machine.specs.Plant.{boom_lamps_whole, lamp, normal, secured};

use form::{Form, Number};
use machine::{Crossing, Entry, kinds};

// Normal position: open, and every boom last reported up.
#[tactic(auto, unfolding(machine::specs::Plant::normal))]
pub fn is_normal<F: Form>(s: Entry, f: F) -> bool
    ensures { result ≡ normal s (F.crossing f) }
{
    f.number(Number::Phase) == 0 && f.booms_up(s.kind)
}

// The lamps of both booms are whole, or not reported at this kind (document 02, T-09).
fn boom_lamps_whole(s: Entry, c: Crossing) -> bool
    ensures { result ≡ boom_lamps_whole s.kind (lamp c) }
{
    !kinds::old_booms(s.kind) || (c.lamps[5] == 1 && c.lamps[6] == 1)
}

// Secured: all ordered down, the road's red whole, and the booms as the kind demands, their lamps too.
#[tactic(auto, unfolding(machine::specs::Plant::secured))]
pub fn is_secured(s: Entry, c: Crossing) -> bool
    ensures { result ≡ secured s c }
{
    c.phase == 3 && c.lamps[1] == 1 && booms::closed(s.kind, c.booms) && boom_lamps_whole(s, c)
}
