// A release that completes on a tick (document 01, "Events"), that of the 1959 sheet too (document 02, T-09), and the trains that
// it writes off, in every form of a crossing.
#![tactic(auto)]

ghost use Rattle.std.specs.Prelude.{◌≡◌, ◌≤◌};
ghost use Rattle.machine.specs.Common.{bit};
ghost use Rattle.machine.specs.Plant.{total};
ghost use Rattle.machine.specs.Effects.{overlong, releases};

use form::{Field, Form, Number};
use machine::{Crossing, Entry};

// The 1959 sheet's own release: out of normal for too long, no hold on and every approach free (document 02, T-09).
#[tactic(auto, unfolding(machine::specs::Effects::overlong))]
fn overlong<F: Form>(s: Entry, f: F) -> bool
    ensures { result ≡ overlong s (F.crossing f) }
{
    kind::old_sheet(s.kind)
        & (u64::from(Crossing::OVERLONG) <= f.number(Number::Out))
        & !((f.number(Number::Kiosk) == 1)
            | (f.number(Number::Operator) == 1)
            | f.any(Field::Occupied))
}

// A release completes on this tick: that of the 1959 sheet, or a running countdown comes to 0.
pub fn completes<F: Form>(s: Entry, f: F) -> bool
    ensures { result ≡ releases s (F.crossing f) }
{
    overlong(s, f) | (f.number(Number::Countdown) == 1)
}

// The trains of a crossing.
fn total<F: Form>(f: F) -> u32
    ensures value { result ≡ total (F.crossing f) }
    ensures upper_bound { result ≤ 2040 }
{
    let mut trains = 0;
    for t in 0..4 {
        trains += f.get(Field::Calling, t) + f.get(Field::Waiting, t);
    }
    trains as u32
}

// The trains that a tick writes off: all of the crossing where a release completes.
pub fn written<F: Form>(s: Entry, f: F) -> u32
    ensures value { result ≡ bit (releases s (F.crossing f)) (total (F.crossing f)) }
    ensures upper_bound { result ≤ 2040 }
{
    if completes(s, f) { total(f) } else { 0 }
}
