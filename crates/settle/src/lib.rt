// Settling: once after an event of the crossing's own or a tick, by the phase on entry (document 01, "Events"), in every form of a
// crossing. In parts, next_phase, enter_next and count_out: together they are too long for the compiler to put into a tick by itself, which
// mostly takes the first and the last; `inline(always)` has it do so.
#![tactic(auto)]

ghost use Rattle.std.specs.Prelude.{◌≡◌, ◌≤◌};
ghost use Rattle.machine.specs.Common.{bit};
ghost use Rattle.machine.specs.Plant.{reason};
ghost use Rattle.machine.specs.Settling.{out_settled, phase_settled, settle};
ghost use Rattle.settle.specs.Parts.{entered, moved, next_phase, settled_out};

use form::{Field, Form, Number};
use machine::{Crossing, Entry};

// A reason stands: some track is calling or a hold is on, or some track is unsure.
#[tactic(auto, unfolding(machine::specs::Plant::reason))]
pub fn stands<F: Form>(f: F) -> bool
    ensures { result ≡ reason (F.crossing f) }
{
    (f.number(Number::Kiosk) == 1)
        | (f.number(Number::Operator) == 1)
        | f.any(Field::Calling)
        | f.any(Field::Unsure)
}

// The phase that settling enters; none where the phase stays. While ticks are left to motorists no warning begins; with M above 0
// raising ends in phase 0 (document 02, T-06).
#[tactic(auto, unfolding(machine::specs::Settling::phase_settled))]
fn phase_settled(s: Entry, stands: bool, up: bool, left: u64, phase: u64) -> Option<u8>
    ensures { moved phase result ≡ phase_settled s stands up left phase }
{
    match phase {
        0 => (stands & (left == 0)).then_some(1),
        1 => (!stands).then_some(0),
        4 => up.then_some(u8::from(stands & (s.pause == 0))),
        _ => (!stands).then_some(if kind::lights_only(s.kind) { 0 } else { 4 }),
    }
}

// The phase that a crossing enters as it settles; none where its phase stays.
pub fn next_phase<F: Form>(s: Entry, f: F) -> Option<u8>
    ensures { moved (F.crossing f).phase result ≡ next_phase s (F.crossing f) }
{
    phase_settled(
        s,
        stands(f),
        f.booms_up(s.kind),
        f.number(Number::Left),
        f.number(Number::Phase),
    )
}

// The crossing in the phase that it enters, if any. The timer is F where a warning begins. Ticks left to motorists are M where a closure
// ends, none where a warning is given up (document 02, T-06). Where the phase stays, so do both. No two crossings meet here: the
// compiler would copy each to the stack and back (docs/BENCHMARK.md).
#[tactic(auto, unfolding(machine::specs::Settling::timer_settled, machine::specs::Settling::left_settled))]
#[inline(always)]
fn enter_next<F: Form>(s: Entry, next: Option<u8>, f: F) -> F
    ensures { F.crossing result ≡ entered s (moved (F.crossing f).phase next) (F.crossing f) }
{
    let phase = f.number(Number::Phase);
    let moves = next.is_some_and(|next| u64::from(next) != phase);
    let next = u64::from(next.unwrap_or(0));
    let timer = if next == 1 { s.pre } else { 0 };
    let ends = (next == 0) & (phase != 1);
    let left = if ends { s.pause } else { 0 };
    f.set_number_if(moves, Number::Phase, next)
        .set_number_if(moves, Number::Timer, u64::from(timer))
        .set_number_if(moves, Number::Left, u64::from(left))
}

// The crossing in the next phase.
pub fn enter<F: Form>(s: Entry, next: u8, f: F) -> F
    ensures { F.crossing result ≡ entered s next (F.crossing f) }
{
    enter_next(s, Some(next), f)
}

// Ticks out of normal after settling.
#[tactic(auto, unfolding(machine::specs::Settling::out_settled))]
fn out_settled(normal: bool, tick: bool, out: u64) -> u64
    ensures value { result ≡ out_settled normal (bit tick 1) out }
    ensures upper_bound { result ≤ 1080 }
{
    if normal {
        return 0;
    }
    out.saturating_add(u64::from(tick))
        .min(u64::from(Crossing::MOST))
}

// The ticks out of normal of a crossing whose phase has settled.
pub fn count_out<F: Form>(s: Entry, tick: bool, f: F) -> F
    ensures { F.crossing result ≡ settled_out s (bit tick 1) (F.crossing f) }
{
    let out = out_settled(position::is_normal(s, f), tick, f.number(Number::Out));
    f.set_number(Number::Out, out)
}

// A crossing after it settles: the three parts in turn.
#[tactic(auto, using(crate::proofs::Parts::all_parts))]
#[inline(always)]
pub fn settle<F: Form>(s: Entry, tick: bool, f: F) -> F
    ensures { F.crossing result ≡ settle s (bit tick 1) (F.crossing f) }
{
    let next = next_phase(s, f);
    count_out(s, tick, enter_next(s, next, f))
}
