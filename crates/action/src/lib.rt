// What an event is, by its code (document 01, "Events").
#![tactic(auto)]

ghost use Rattle.action.specs.Codes.{Decodes};

use refusal::Refusal;

// The ten codes, by the names of document 01's event table.
#[derive(Clone, Copy, Debug, PartialEq, Eq)]
pub enum Action {
    Tick,
    StrikeIn,
    Passage,
    KioskHold,
    OperatorHold,
    Route,
    Approach,
    TimeRelease,
    BoomReport,
    LampReport,
}

// A byte that is no code is refused with its number.
impl TryFrom<u8> for Action {
    type Error = Refusal;

    ghost try_from_gives = { Decodes };

    fn try_from(code: u8) -> Result<Self, Refusal> {
        match code {
            0 => Ok(Action::Tick),
            1 => Ok(Action::StrikeIn),
            2 => Ok(Action::Passage),
            3 => Ok(Action::KioskHold),
            4 => Ok(Action::OperatorHold),
            5 => Ok(Action::Route),
            6 => Ok(Action::Approach),
            7 => Ok(Action::TimeRelease),
            8 => Ok(Action::BoomReport),
            9 => Ok(Action::LampReport),
            _ => Err(Refusal::UnknownCode),
        }
    }
}
