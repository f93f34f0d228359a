// What a taken event of codes 1 to 9 does to its own crossing, in every form of it, and writes off there (document 01, "Events";
// document 02, T-01). Each function here is for other functions and crates alone: all but `written_off` require what a taken event
// of a crossing in range has.
#![tactic(auto)]

ghost use Rattle.std.specs.Prelude.{◌≡◌, ◌≤◌};
ghost use Rattle.machine.specs.Common.{bit};
ghost use Rattle.machine.specs.Effects.{act, sweeps};
ghost use Rattle.machine.specs.Settling.{settle};
ghost use Rattle.train.specs.Room.{Takes};
ghost use Rattle.effect.specs.Parts.{Holds, Reports};

use action::Action;
use form::{Field, Form, Number};
use machine::{Crossing, Entry, Event};

// Kiosk hold and operator hold. A hold on cancels the countdown, a repeat included.
fn hold<F: Form>(s: Entry, f: F, e: Event, which: Number) -> F
    requires { Holds which e.code }
    ensures { F.crossing result ≡ act s (F.crossing f) e }
{
    let value = u64::from(e.value);
    let d = f.set_number(which, value);
    if value == 1 {
        return d.set_number(Number::Countdown, 0);
    }
    d
}

// Approach: occupied cancels the countdown.
fn approach<F: Form>(s: Entry, f: F, e: Event) -> F
    requires { (e.code ≡ 6) × Takes F.limit (F.crossing f) e }
    ensures { F.crossing result ≡ act s (F.crossing f) e }
{
    let d = f.set(Field::Occupied, e.place, u64::from(e.value));
    if e.value == 1 {
        return d.set_number(Number::Countdown, 0);
    }
    d
}

// Time release begins, again if running.
fn time_release<F: Form>(s: Entry, f: F, e: Event) -> F
    requires { e.code ≡ 7 }
    ensures { F.crossing result ≡ act s (F.crossing f) e }
{
    f.set_number(Number::Countdown, u64::from(Crossing::RELEASE))
}

// Boom report and lamp report.
fn report<F: Form>(s: Entry, f: F, e: Event, field: Field) -> F
    requires { Reports field e.code × Takes F.limit (F.crossing f) e }
    ensures { F.crossing result ≡ act s (F.crossing f) e }
{
    f.set(field, e.place, u64::from(e.value))
}

// The event by its code, before the crossing settles.
fn act<F: Form>(s: Entry, f: F, e: Event) -> F
    requires { Takes F.limit (F.crossing f) e }
    ensures { F.crossing result ≡ act s (F.crossing f) e }
{
    match Action::try_from(e.code) {
        Ok(Action::StrikeIn) => train::strike_in(s, f, e),
        Ok(Action::Passage) => train::passage(s, f, e),
        Ok(Action::KioskHold) => hold(s, f, e, Number::Kiosk),
        Ok(Action::OperatorHold) => hold(s, f, e, Number::Operator),
        Ok(Action::Route) => train::route(s, f, e),
        Ok(Action::Approach) => approach(s, f, e),
        Ok(Action::TimeRelease) => time_release(s, f, e),
        Ok(Action::BoomReport) => report(s, f, e, Field::Booms),
        Ok(Action::LampReport) => report(s, f, e, Field::Lamps),
        Ok(Action::Tick) => f,
        Err(_) => f,
    }
}

// The trains that a taken event of codes 1 to 9 writes off at its own crossing: 1 where a strike-in finds its track full
// (document 02, T-01).
pub fn written_off<F: Form>(f: F, e: Event) -> u32
    ensures value { result ≡ bit (sweeps (F.crossing f) e) 1 }
    ensures upper_bound { result ≤ 1 }
{
    if e.code == 1 {
        if track::full(f, usize::from(e.place)) {
            return 1;
        }
    }
    0
}

// What a taken event of codes 1 to 9 makes of its own crossing. For other crates alone: room for the event is what a
// crossing in range has for an event with number 0 (`taken_room`).
pub fn apply<F: Form>(s: Entry, f: F, e: Event) -> F
    requires { Takes F.limit (F.crossing f) e }
    ensures { F.crossing result ≡ settle s 0 (act s (F.crossing f) e) }
{
    settle::settle(s, false, act(s, f, e))
}
