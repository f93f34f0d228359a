// The verdict on a sender's event (document 02, T-04).
#![tactic(auto)]

ghost use Rattle.std.specs.Prelude.{◌≡◌, ◌&&◌, leb, IfOk};
ghost use Rattle.machine.specs.Rights.{may_send};
ghost use Rattle.machine.specs.Events.{refusal};
ghost use Rattle.refusal.specs.Numbers.{hut_number, number_of};

use machine::{Crossing, Entry, Event};
use refusal::Refusal;

// 5 to 8 are asked before the right.
fn before_right(refusal: Refusal) -> bool
    ensures { result ≡ (leb 5 (hut_number refusal) && leb (hut_number refusal) 8) }
{
    matches!(
        refusal,
        Refusal::UnknownCode
            | Refusal::UnknownCrossing
            | Refusal::UnknownPlace
            | Refusal::UnknownValue
    )
}

// The verdict with every right, where the sender has it; without it 5 to 8 stand, and all else is 17.
pub fn judge(n: u8, s: Entry, c: Crossing, sender: u8, e: Event) -> Result<Event, Refusal>
    ensures number { number_of result ≡ refusal n s c (may_send sender e.code e.value) e }
    ensures event { IfOk result (λ t. t ≡ e) }
{
    let verdict = verdict::judge(n, s, c, e);
    if rights::may_send(sender, e.code, e.value) {
        return verdict;
    }
    let Err(refusal) = verdict else {
        return Err(Refusal::NoRight);
    };
    if before_right(refusal) {
        return Err(refusal);
    }
    Err(Refusal::NoRight)
}
