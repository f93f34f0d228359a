// What a call refuses, as one error, and its number at the hut (document 01, "Numbers at the hut").
#![tactic(auto)]

ghost use Rattle.std.specs.Prelude.{◌≡◌, true, false, OnOk, IfErr};
ghost use Rattle.refusal.specs.Numbers.{hut_number};

use machine::numbers;

// A refusal, by the name of its number in specs/Numbers.antt of the machine.
#[derive(Clone, Copy, Debug, PartialEq, Eq)]
pub enum Refusal {
    BadBookLength,
    BadCount,
    BadSetting,
    BadSheetLength,
    UnknownCode,
    UnknownCrossing,
    UnknownPlace,
    UnknownValue,
    // No call gives it (document 02, T-01).
    TrackFull,
    NoTrain,
    TrainCalling,
    NotClear,
    NotDependent,
    BadOutputLength,
    OutOfRange,
    // Document 02, T-04.
    UnknownSender,
    // Document 02, T-04.
    NoRight,
    // Document 02, T-07.
    ShiftTooLong,
    // Document 02, T-08.
    BadSpeed,
    // Document 02, T-08.
    BadRetardation,
    // Document 02, T-08.
    BadGradient,
}

impl Refusal {
    // Its number at the hut.
    pub fn number(self) -> u8
        ensures { result ≡ hut_number self }
    {
        match self {
            Refusal::BadBookLength => numbers::BAD_BOOK_LENGTH,
            Refusal::BadCount => numbers::BAD_COUNT,
            Refusal::BadSetting => numbers::BAD_SETTING,
            Refusal::BadSheetLength => numbers::BAD_SHEET_LENGTH,
            Refusal::UnknownCode => numbers::UNKNOWN_CODE,
            Refusal::UnknownCrossing => numbers::UNKNOWN_CROSSING,
            Refusal::UnknownPlace => numbers::UNKNOWN_PLACE,
            Refusal::UnknownValue => numbers::UNKNOWN_VALUE,
            Refusal::TrackFull => numbers::TRACK_FULL,
            Refusal::NoTrain => numbers::NO_TRAIN,
            Refusal::TrainCalling => numbers::TRAIN_CALLING,
            Refusal::NotClear => numbers::NOT_CLEAR,
            Refusal::NotDependent => numbers::NOT_DEPENDENT,
            Refusal::BadOutputLength => numbers::BAD_OUTPUT_LENGTH,
            Refusal::OutOfRange => numbers::OUT_OF_RANGE,
            Refusal::UnknownSender => numbers::UNKNOWN_SENDER,
            Refusal::NoRight => numbers::NO_RIGHT,
            Refusal::ShiftTooLong => numbers::SHIFT_TOO_LONG,
            Refusal::BadSpeed => numbers::BAD_SPEED,
            Refusal::BadRetardation => numbers::BAD_RETARDATION,
            Refusal::BadGradient => numbers::BAD_GRADIENT,
        }
    }
}

// Refused where the test holds.
pub fn refuse_if(test: bool, refusal: Refusal) -> Result<(), Refusal>
    ensures passed { OnOk result (test ≡ false) }
    ensures refused { IfErr result (λ r. (test ≡ true) × (r ≡ refusal)) }
{
    if test { Err(refusal) } else { Ok(()) }
}
