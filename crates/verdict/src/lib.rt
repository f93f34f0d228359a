// The verdict on an event: taken, or refused with its number (document 01, "Events", "Numbers at the hut"), in every form of its
// crossing.
#![tactic(auto)]

ghost use Rattle.std.specs.Prelude.{true, ◌&&◌, ◌≡◌, eqb, IfOk};
ghost use Rattle.machine.specs.Events.{any_calling, blocked, refusal};
ghost use Rattle.action.specs.Codes.{code_of};
ghost use Rattle.refusal.specs.Numbers.{number_of};
ghost use Rattle.verdict.specs.Cases.{of_action, row_of, state_refusal, tick_refusal};

use action::Action;
use form::{Field, Form, Number};
use machine::{Entry, Event, reports};
use refusal::{Refusal, refuse_if};

// A row of the event table: the event's crossing, place and value are below these.
#[derive(Clone, Copy, Debug, PartialEq, Eq)]
pub struct Limits {
    pub crossing: u8,
    pub place: u8,
    pub value: u8,
}

// Operator hold off while some track is calling, hold on or not.
fn held_by_train<F: Form>(f: F, value: u8) -> bool
    ensures { result ≡ (eqb value 0 && any_calling (F.crossing f)) }
{
    (value == 0) & f.any(Field::Calling)
}

// A hold is on, a route is set or an approach is occupied.
fn blocked<F: Form>(f: F) -> bool
    ensures { result ≡ blocked (F.crossing f) }
{
    (f.number(Number::Kiosk) == 1)
        | (f.number(Number::Operator) == 1)
        | f.any(Field::Route)
        | f.any(Field::Occupied)
}

// What the event's crossing holds, by what the event is: 13, then 10 to 12.
#[inline(always)]
fn judge_state<F: Form>(s: Entry, f: F, action: Action, e: Event) -> Result<(), Refusal>
    ensures { number_of result ≡ state_refusal s (F.crossing f) (of_action action e) }
{
    let t = usize::from(e.place);
    match action {
        Action::Route => refuse_if(!kind::dependent(s, t), Refusal::NotDependent),
        Action::Passage => refuse_if(track::trains(f, t) == 0, Refusal::NoTrain),
        Action::OperatorHold => refuse_if(held_by_train(f, e.value), Refusal::TrainCalling),
        Action::TimeRelease => refuse_if(blocked(f), Refusal::NotClear),
        _ => Ok(()),
    }
}

// The row of an event in the event table: a tick is of the whole plant; a boom reports at most that its position is lost (document
// 02, T-02).
#[tactic(auto, unfolding(machine::specs::Events::place_limit, machine::specs::Events::value_limit))]
fn row_of(n: u8, s: Entry, action: Action) -> Limits
    ensures { result ≡ row_of n s (code_of action) }
{
    let (crossing, place, value) = match action {
        Action::Tick => (1, 1, 1),
        Action::StrikeIn | Action::Passage => (n, s.tracks, 1),
        Action::KioskHold | Action::OperatorHold => (n, 1, 2),
        Action::Route | Action::Approach => (n, s.tracks, 2),
        Action::TimeRelease => (n, 1, 1),
        Action::BoomReport => (n, kind::boom_count(s.kind), reports::LOST + 1),
        Action::LampReport => (n, kind::lamp_count(s.kind), 2),
    };
    Limits {
        crossing,
        place,
        value,
    }
}

// The verdict on an event of code 0, which is a tick: it asks no crossing, so that the sheet run over lanes reads none.
pub fn judge_tick(e: Event) -> Result<Event, Refusal>
    ensures number { number_of result ≡ tick_refusal e }
    ensures event { IfOk result (λ t. t ≡ e) }
{
    refuse_if(0 < e.crossing, Refusal::UnknownCrossing)?;
    refuse_if(0 < e.place, Refusal::UnknownPlace)?;
    refuse_if(0 < e.value, Refusal::UnknownValue)?;
    Ok(e)
}

// The verdict on an event of a plant of n crossings; s and f are those of the event's own crossing. Any four bytes, any
// settings and any crossing, spoilt ones too. It has every right, as in a sheet.
pub fn judge<F: Form>(n: u8, s: Entry, f: F, e: Event) -> Result<Event, Refusal>
    ensures number { number_of result ≡ refusal n s (F.crossing f) true e }
    ensures event { IfOk result (λ t. t ≡ e) }
{
    let action = Action::try_from(e.code)?;
    let row = row_of(n, s, action);
    refuse_if(row.crossing <= e.crossing, Refusal::UnknownCrossing)?;
    refuse_if(row.place <= e.place, Refusal::UnknownPlace)?;
    refuse_if(row.value <= e.value, Refusal::UnknownValue)?;
    judge_state(s, f, action, e)?;
    Ok(e)
}
