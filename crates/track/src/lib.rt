// What one track holds (document 01, "What the plant holds").
#![tactic(auto)]

ghost use Rattle.std.specs.Prelude.{◌≡◌, ◌≤◌, ◌<◌};
ghost use Rattle.machine.specs.Plant.{trains, is_full};
ghost use Rattle.machine.specs.Range.{track_in, track_zero};

use form::{Field, Form};
use machine::{Crossing, Entry};

// Nothing on track t. For other crates alone: t is below 4.
pub fn track_zero(c: Crossing, t: usize) -> bool
    requires { t < 4 }
    ensures { result ≡ track_zero c t }
{
    c.calling[t] == 0
        && c.waiting[t] == 0
        && c.route[t] == 0
        && c.occupied[t] == 0
        && c.unsure[t] == 0
}

// The trains of track t; none on a track past the fourth.
pub fn trains<F: Form>(f: F, t: usize) -> u16
    ensures value { result ≡ trains (F.crossing f) t }
    ensures upper_bound { result ≤ 510 }
{
    if t < 4 {
        let t = t as u8;
        (f.get(Field::Calling, t) + f.get(Field::Waiting, t)) as u16
    } else {
        0
    }
}

// Track t is full.
pub fn full<F: Form>(f: F, t: usize) -> bool
    ensures { result ≡ is_full (F.crossing f) t }
{
    u16::from(Crossing::FULL) <= trains(f, t)
}

// What track t holds is in its range. For other crates alone: t is below 4.
#[tactic(auto, unfolding(machine::specs::Range::track_in))]
pub fn track_in(s: Entry, c: Crossing, t: usize) -> bool
    requires { t < 4 }
    ensures { result ≡ track_in s c t }
{
    trains(c, t) <= u16::from(Crossing::FULL)
        && (c.route[t] <= 1 && c.occupied[t] <= 1 && c.unsure[t] <= 1)
        && (kind::dependent(s, t) || (c.waiting[t] == 0 && c.route[t] == 0))
        && (t < usize::from(s.tracks) || track_zero(c, t))
}
