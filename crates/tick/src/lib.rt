// One crossing's tick (document 01, "Events"), in every form of a crossing.
#![tactic(auto)]

ghost use Rattle.std.specs.Prelude.{◌≡◌, ◌≤◌};
ghost use Rattle.machine.specs.Effects.{tick};
ghost use Rattle.tick.specs.Ticks.{held, ticked_crossing, timed};

use form::{Field, Form, Number};
use machine::Entry;

// One crossing after a tick, and the trains written off there.
#[derive(Clone, Copy)]
pub struct Ticked<F> {
    pub crossing: F,
    pub written: u32,
}

// The timer by 1. At 0 it leads from phase 1 to 2 for kind 4, with timer G, otherwise to 3, and from 2 to 3.
#[tactic(auto, unfolding(machine::specs::Effects::phase_ticked, machine::specs::Effects::timer_ticked))]
fn run_timer<F: Form>(s: Entry, f: F) -> F
    ensures { F.crossing result ≡ timed s (F.crossing f) }
{
    let ends = f.number(Number::Timer) == 1;
    let halfway = (f.number(Number::Phase) == 1) & kind::four_booms(s.kind);
    let next = if halfway { 2 } else { 3 };
    f.lower(Number::Timer)
        .set_number_if(ends, Number::Phase, next)
        .set_number_if(ends & halfway, Number::Timer, u64::from(s.gap))
}

// The countdown, then the timer, then the ticks left to motorists (document 02, T-06), by 1; a release that completes clears the
// trains of the crossing and the countdown (T-09), and no track stays unsure (T-01).
#[tactic(auto, unfolding(machine::specs::Effects::tick))]
fn run_down<F: Form>(s: Entry, f: F) -> F
    ensures { F.crossing result ≡ tick s (F.crossing f) }
{
    let d = run_timer(s, f).lower(Number::Countdown).lower(Number::Left);
    if release::completes(s, f) {
        return d
            .set_number(Number::Countdown, 0)
            .clear(Field::Calling)
            .clear(Field::Waiting)
            .clear(Field::Unsure);
    }
    d
}

// One crossing's tick: it runs down and settles. Mostly neither countdown nor timer runs, no ticks are left to motorists, no release
// completes and the phase stays: then the ticks out of normal alone may change.
pub fn tick<F: Form>(s: Entry, f: F) -> Ticked<F>
    ensures value { held F.crossing result ≡ ticked_crossing s (F.crossing f) }
    ensures written_bound { result.written ≤ 2040 }
{
    let still = (f.number(Number::Countdown) == 0)
        & (f.number(Number::Timer) == 0)
        & (f.number(Number::Left) == 0)
        & !release::completes(s, f);
    if still & settle::next_phase(s, f).is_none() {
        let crossing = settle::count_out(s, true, f);
        return Ticked {
            crossing,
            written: 0,
        };
    }
    let off = release::written(s, f);
    let crossing = settle::settle(s, true, run_down(s, f));
    Ticked {
        crossing,
        written: off,
    }
}
