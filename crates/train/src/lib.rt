// The events that move trains: strike-in, passage and route (document 01, "Events"), in every form of a crossing.
// Each function is for crates/effect alone: it requires what a taken event of a crossing in range has.
#![tactic(auto)]

ghost use Rattle.std.specs.Prelude.{◌≡◌};
ghost use Rattle.machine.specs.Effects.{act};
ghost use Rattle.train.specs.Room.{Takes};

use form::{Field, Form, Number};
use machine::{Entry, Event};

// Strike-in: calling + 1 on a plain track or with the route set, otherwise waiting + 1. A full track keeps its counts and
// becomes unsure (document 02, T-01).
pub fn strike_in<F: Form>(s: Entry, f: F, e: Event) -> F
    requires { (e.code ≡ 1) × Takes F.limit (F.crossing f) e }
    ensures { F.crossing result ≡ act s (F.crossing f) e }
{
    let t = e.place;
    let d = f.set_number(Number::Countdown, 0);
    if track::full(f, usize::from(t)) {
        return d.set(Field::Unsure, t, 1);
    }
    if !kind::dependent(s, usize::from(t)) | (f.get(Field::Route, t) == 1) {
        return d.set(Field::Calling, t, f.get(Field::Calling, t) + 1);
    }
    d.set(Field::Waiting, t, f.get(Field::Waiting, t) + 1)
}

// Passage: calling - 1, or waiting - 1 where calling is 0.
pub fn passage<F: Form>(s: Entry, f: F, e: Event) -> F
    requires { (e.code ≡ 2) × Takes F.limit (F.crossing f) e }
    ensures { F.crossing result ≡ act s (F.crossing f) e }
{
    let t = e.place;
    let calling = f.get(Field::Calling, t);
    if calling == 0 {
        return f.set(Field::Waiting, t, f.get(Field::Waiting, t) - 1);
    }
    f.set(Field::Calling, t, calling - 1)
}

// Route: setting moves all waiting to calling and cancels the countdown; cancelling moves none.
pub fn route<F: Form>(s: Entry, f: F, e: Event) -> F
    requires { (e.code ≡ 5) × Takes F.limit (F.crossing f) e }
    ensures { F.crossing result ≡ act s (F.crossing f) e }
{
    let t = e.place;
    let d = f.set(Field::Route, t, u64::from(e.value));
    if e.value == 1 {
        let calling = f.get(Field::Calling, t) + f.get(Field::Waiting, t);
        return d
            .set(Field::Calling, t, calling)
            .set(Field::Waiting, t, 0)
            .set_number(Number::Countdown, 0);
    }
    d
}
