// The eight slots of a run.
#![tactic(auto)]

ghost use Rattle.std.specs.Prelude.{◌≡◌, ◌≤◌};
ghost use Rattle.slots.specs.Eight.{AllSmall, Begun, shown, AllFit, Swept};

use machine::{Crossing, Site};
use slot::Packed;

// The slots after a tick, a tick before which none is due, and the trains written off.
#[derive(Clone, Copy)]
pub struct Round {
    pub slots: [Packed; 8],
    pub least: u64,
    pub written: u64,
}

// The slots before the first tick. For other crates alone.
pub fn begin(crossings: [Crossing; 8]) -> [Packed; 8]
    requires { AllSmall crossings }
    ensures { Begun crossings result }
{
    [
        slot::first(crossings[0]),
        slot::first(crossings[1]),
        slot::first(crossings[2]),
        slot::first(crossings[3]),
        slot::first(crossings[4]),
        slot::first(crossings[5]),
        slot::first(crossings[6]),
        slot::first(crossings[7]),
    ]
}

// A tick that some slot may be due at. For other crates alone.
pub fn sweep(site: Site, now: u64, slots: [Packed; 8]) -> Round
    requires { now ≤ 4095 }
    ensures { Swept site now slots result.slots 8 result.least result.written }
{
    let mut next = slots;
    let mut least: u64 = 16384;
    let mut written: u64 = 0;
    for i in 0..8 {
        let z = next[i];
        if now < z.due {
            least = least.min(z.due);
            continue;
        }
        let w = slot::tick(site.entries[i], now, z);
        next[i] = w.slot;
        least = least.min(w.slot.due);
        written += w.written;
    }
    Round {
        slots: next,
        least,
        written,
    }
}

// The crossings at the tick `now`, stored over those given. For other crates alone.
pub fn finish(site: Site, now: u64, slots: [Packed; 8], crossings: [Crossing; 8]) -> [Crossing; 8]
    requires { AllFit site now slots }
    ensures { result ≡ shown site now slots }
{
    let mut next = crossings;
    for i in 0..8 {
        next[i] = lane::unpack(slot::current(site.entries[i], now, slots[i]));
    }
    next
}
