// The range check: every held number of a plant, settings included, is in its range (number 15). Any plant, spoilt ones too.
#![tactic(auto)]

ghost use Rattle.std.specs.Prelude.{◌≡◌};
ghost use Rattle.machine.specs.Common.{all_below};
ghost use Rattle.machine.specs.Plant.{crossing, entry};
ghost use Rattle.machine.specs.Range.{in_range, place_in};

use held::crossing_in;
use machine::{Crossing, Entry, Plant};
use settings::{count_in, entry_in, entry_zero};
use unused::crossing_zero;

// The entry and the record at place i of a plant of n crossings.
#[tactic(auto, unfolding(machine::specs::Range::place_in))]
fn place_in(n: u8, i: usize, s: Entry, c: Crossing) -> bool
    ensures { result ≡ place_in n i s c }
{
    if i < usize::from(n) {
        entry_in(s) && crossing_in(s, c)
    } else {
        entry_zero(s) && crossing_zero(c)
    }
}

// What each place holds is in its range.
fn places_in(p: Plant) -> bool
    ensures { result ≡ all_below 8 (λ i. place_in p.site.n i (entry p i) (crossing p i)) }
{
    (0..8).all(|i| place_in(p.site.n, i, p.site.entries[i], p.crossings[i]))
}

// Every held number of any plant, spoilt ones too, against its range.
#[tactic(auto, unfolding(machine::specs::Range::in_range))]
pub fn in_range(p: Plant) -> bool
    ensures { result ≡ in_range p }
{
    count_in(p.site.n) && p.beat <= 3 && places_in(p)
}
