// Rights at the desk (document 02, T-04): who may send what, and what a sender sees of a crossing.
#![tactic(auto)]

ghost use Rattle.std.specs.Prelude.{◌≡◌, ◌||◌, eqb};
ghost use Rattle.action.specs.Codes.{code_of};
ghost use Rattle.machine.specs.Panel.{seen};
ghost use Rattle.machine.specs.Rights.{known_sender, may_send};
ghost use Rattle.machine.specs.Senders.{detection, kiosk};
ghost use Rattle.rights.specs.Senders.{Decodes, sender_number};

use action::Action;
use machine::senders;
use refusal::Refusal;

// The four senders.
#[derive(Clone, Copy, Debug, PartialEq, Eq)]
pub enum Sender {
    Detection,
    Kiosk,
    LocalOperator,
    RemoteCentre,
}

// A byte that is no sender's number is refused.
impl TryFrom<u8> for Sender {
    type Error = Refusal;

    ghost try_from_gives = { Decodes };

    fn try_from(number: u8) -> Result<Self, Refusal> {
        match number {
            senders::DETECTION => Ok(Sender::Detection),
            senders::KIOSK => Ok(Sender::Kiosk),
            senders::LOCAL_OPERATOR => Ok(Sender::LocalOperator),
            senders::REMOTE_CENTRE => Ok(Sender::RemoteCentre),
            _ => Err(Refusal::UnknownSender),
        }
    }
}

impl Sender {
    // It sees all that a crossing shows, and not only what the desk needs.
    fn sees_all(self) -> bool
        ensures { result ≡ (eqb (sender_number self) detection || eqb (sender_number self) kiosk) }
    {
        matches!(self, Sender::Detection | Sender::Kiosk)
    }

    // It may send an event of this action and value.
    #[tactic(auto, unfolding(machine::specs::Rights::may_send))]
    fn may_send(self, action: Action, value: u8) -> bool
        ensures { result ≡ may_send (sender_number self) (code_of action) value }
    {
        match self {
            Sender::Detection => matches!(
                action,
                Action::Tick
                    | Action::StrikeIn
                    | Action::Passage
                    | Action::Route
                    | Action::Approach
                    | Action::BoomReport
                    | Action::LampReport
            ),
            Sender::Kiosk => action == Action::KioskHold,
            Sender::LocalOperator => matches!(action, Action::OperatorHold | Action::TimeRelease),
            Sender::RemoteCentre => match action {
                Action::TimeRelease => true,
                Action::OperatorHold => value == 1,
                _ => false,
            },
        }
    }
}

// One of the four senders.
pub fn known(sender: u8) -> bool
    ensures { result ≡ known_sender sender }
{
    Sender::try_from(sender).is_ok()
}

// The sender may send an event of this code and value.
#[tactic(auto, unfolding(machine::specs::Rights::may_send))]
pub fn may_send(sender: u8, code: u8, value: u8) -> bool
    ensures { result ≡ may_send sender code value }
{
    let Ok(sender) = Sender::try_from(sender) else {
        return false;
    };
    let Ok(action) = Action::try_from(code) else {
        return false;
    };
    sender.may_send(action, value)
}

// The bytes of a crossing as a sender sees them: all of them, or those of the desk and 0 for the others.
pub fn seen(sender: u8, row: [u8; 16]) -> [u8; 16]
    ensures { result ≡ seen sender row }
{
    let desk = [
        row[0], 0, 0, 0, 0, 0, row[6], row[7], row[8], row[9], row[10], row[11], 0, 0, 0, 0,
    ];
    let Ok(sender) = Sender::try_from(sender) else {
        return desk;
    };
    if sender.sees_all() { row } else { desk }
}
