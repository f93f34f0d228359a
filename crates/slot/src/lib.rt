// A slot of the run: a crossing as of an earlier tick, brought up to date when it is next looked at.
#![tactic(auto)]

ghost use Rattle.std.specs.Prelude.{◌≡◌, ◌≤◌, suc};
ghost use Rattle.machine.specs.Common.{bit};
ghost use Rattle.machine.specs.Plant.{total};
ghost use Rattle.machine.specs.Effects.{releases, tick};
ghost use Rattle.machine.specs.Settling.{settle};
ghost use Rattle.lane.specs.Lanes.{crossing_of, Small};
ghost use Rattle.slot.specs.Ready.{Ready};
ghost use Rattle.slot.specs.Slots.{first_slot, seen, current, laid, acted};

use lane::Lane;
use machine::{Crossing, Entry, Event};

// A slot in words: a lane as it was at the tick `since`; up to the tick `due` every tick only counts there.
#[derive(Clone, Copy)]
pub struct Packed {
    pub lane: Lane,
    pub since: u64,
    pub due: u64,
}

// A slot after a tick, and the trains written off there.
#[derive(Clone, Copy)]
pub struct Ticked {
    pub slot: Packed,
    pub written: u64,
}

// A slot before the first tick, which is done there. For other crates alone: what the crossing holds is small.
pub fn first(c: Crossing) -> Packed
    requires { Small c }
    ensures { seen result ≡ first_slot c }
{
    Packed {
        lane: lane::pack(c),
        since: 0,
        due: 0,
    }
}

// The lane of a slot at the tick `now`.
pub fn current(s: Entry, now: u64, z: Packed) -> Lane
    ensures { crossing_of result ≡ current s now (seen z) }
{
    let l = z.lane;
    quiet::advance(s, now.saturating_sub(z.since), l)
}

// A settled lane laid into a slot at the tick `now`. Inside this crate alone.
fn lay(s: Entry, now: u64, l: Lane) -> Packed
    requires { now ≤ 4096 }
    ensures { seen result ≡ laid s now (crossing_of l) }
{
    let due = now + quiet::span(s, l);
    Packed {
        lane: l,
        since: now,
        due,
    }
}

// A slot after the tick `now`, which is not quiet there: brought up to date, ticked and laid anew. For other crates alone.
pub fn tick(s: Entry, now: u64, z: Packed) -> Ticked
    requires { now ≤ 4095 }
    ensures slot_value { seen result.slot ≡ laid s (suc now) (settle s 1 (tick s (current s now (seen z)))) }
    ensures written_value { result.written ≡ bit (releases s (current s now (seen z))) (total (current s now (seen z))) }
    ensures written_bound { result.written ≤ 2040 }
{
    let l = current(s, now, z);
    let t = tick::tick(s, l);
    let d = t.crossing;
    let slot = lay(s, now + 1, d);
    Ticked {
        slot,
        written: u64::from(t.written),
    }
}

// A slot after a taken event of its own crossing. For other crates alone.
pub fn apply(s: Entry, now: u64, z: Packed, e: Event) -> Packed
    requires { (now ≤ 4096) × Ready (current s now (seen z)) e }
    ensures { seen result ≡ acted s now (seen z) e }
{
    let l = current(s, now, z);
    let d = effect::apply(s, l, e);
    lay(s, now, d)
}
