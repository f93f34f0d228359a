// The event call (document 01, "Events"; document 02, T-04): any plant, spoilt ones too, any sender and any four bytes.
#![tactic(auto)]

ghost use Rattle.std.specs.Prelude.{◌≡◌, true};
ghost use Rattle.machine.specs.Range.{in_range};
ghost use Rattle.machine.specs.Rights.{known_sender};
ghost use Rattle.machine.specs.Events.{listed, sent, number};
ghost use Rattle.machine.specs.Step.{step};
ghost use Rattle.event.specs.Answers.{answer_of, taken_answer};

use action::Action;
use machine::{Event, Plant};
use refusal::{Refusal, refuse_if};

// What a taken event gives: the trains written off and the plant after it.
#[derive(Clone, Copy)]
pub struct Taken {
    pub written: u32,
    pub plant: Plant,
}

// A tick that is taken, whoever sent it. Inside this crate alone.
fn take_tick(p: Plant, e: Event) -> Taken
    requires { (number p (listed e) ≡ 0) × (e.code ≡ 0) }
    ensures { taken_answer result ≡ step p (listed e) }
{
    let site = p.site;
    let crossings = p.crossings;
    let t = plant_tick::tick_all(site, p.beat, crossings);
    let after = t.crossings;
    Taken {
        written: t.written,
        plant: Plant {
            site,
            beat: t.beat,
            crossings: after,
        },
    }
}

// An event of one crossing that is taken, whoever sent it: the others stay as they are. Inside this crate alone.
fn take_own(p: Plant, e: Event) -> Taken
    requires { (number p (listed e) ≡ 0) × (e.code ≡ 0 → ⊥) }
    ensures { taken_answer result ≡ step p (listed e) }
{
    let k = usize::from(e.crossing);
    let site = p.site;
    let s = site.entries[k];
    let c = p.crossings[k];
    let off = effect::written_off(c, e);
    let d = effect::apply(s, c, e);
    let mut q = p;
    q.crossings[k] = d;
    Taken {
        written: off,
        plant: q,
    }
}

// An event that is taken, whoever sent it. Inside this crate alone.
fn take(p: Plant, e: Event) -> Taken
    requires { number p (listed e) ≡ 0 }
    ensures { taken_answer result ≡ step p (listed e) }
{
    if e.code == Action::Tick as u8 {
        return take_tick(p, e);
    }
    take_own(p, e)
}

// One event of a known sender on a plant in range. For other crates alone.
pub fn answer(p: Plant, sender: u8, e: Event) -> Result<Taken, Refusal>
    requires { (in_range p ≡ true) × (known_sender sender ≡ true) }
    ensures { answer_of p result ≡ step p (sent sender e) }
{
    let k = usize::from(e.crossing % 8);
    let site = p.site;
    let s = site.entries[k];
    let c = p.crossings[k];
    let t = command::judge(site.n, s, c, sender, e)?;
    Ok(take(p, t))
}

// One event of a sender: the trains written off and the plant after it, or what refuses it.
pub fn handle(p: Plant, sender: u8, e: Event) -> Result<Taken, Refusal>
    ensures { answer_of p result ≡ step p (sent sender e) }
{
    refuse_if(!plant::in_range(p), Refusal::OutOfRange)?;
    refuse_if(!rights::known(sender), Refusal::UnknownSender)?;
    answer(p, sender, e)
}
