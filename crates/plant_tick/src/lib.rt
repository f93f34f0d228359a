// A tick of the whole plant (document 01, "Events").
#![tactic(auto)]

ghost use Rattle.std.specs.Prelude.{true, ◌≡◌, ◌≤◌};
ghost use Rattle.machine.specs.Range.{in_range};
ghost use Rattle.plant_tick.specs.Ticks.{ticked_plant};

use machine::{Crossing, Site};

// The whole plant after a tick, but for its site, and the trains written off.
#[derive(Clone, Copy)]
pub struct Ticks {
    pub beat: u8,
    pub crossings: [Crossing; 8],
    pub written: u32,
}

// A tick of the whole plant: the beat, then each crossing. For other crates alone, since it requires a plant in range:
// a record past the last crossing is all zero, and a tick leaves it so.
pub fn tick_all(site: Site, beat: u8, crossings: [Crossing; 8]) -> Ticks
    requires { in_range (record { site = site; beat = beat; crossings = crossings }) ≡ true }
    ensures value { result ≡ ticked_plant (record { site = site; beat = beat; crossings = crossings }) }
    ensures written_bound { result.written ≤ 16320 }
{
    let n = usize::from(site.n);
    let mut next = crossings;
    let mut written: u32 = 0;
    for i in 0..n {
        let t = tick::tick(site.entries[i], next[i]);
        next[i] = t.crossing;
        written += t.written;
    }
    Ticks {
        beat: (beat + 1) % 4,
        crossings: next,
        written,
    }
}
