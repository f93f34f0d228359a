// A form in which a crossing is held: the struct of the plant, here, or words (crates/lane). What an event and a tick make of a
// crossing is written once, over this trait.
#![tactic(auto)]

mod plain;

ghost use Rattle.std.specs.Prelude.{cond, ◌≡◌, ◌≤◌, ◌<◌, List, ℕ, pred, set};
ghost use Rattle.machine.specs.declared.Crossing.{Crossing};
ghost use Rattle.form.specs.declared.Field.{Field};
ghost use Rattle.machine.specs.Common.{tab};
ghost use Rattle.machine.specs.Plant.{boom, booms_up};
ghost use Rattle.form.specs.Forms.{Val, Is, array_of, with_array, places, Sized, at, any_of, least_limit, number_in, with_number, most};

// The arrays of a crossing.
#[derive(Clone, Copy, Debug, PartialEq, Eq)]
pub enum Field {
    Calling,
    Waiting,
    Route,
    Occupied,
    Unsure,
    Booms,
    Lamps,
}

// Its numbers.
#[derive(Clone, Copy, Debug, PartialEq, Eq)]
pub enum Number {
    Kiosk,
    Operator,
    Countdown,
    Phase,
    Timer,
    Left,
    Out,
}

// What a form holds is said by the crossing that it is.
pub trait Form: Copy {
    ghost crossing: { Self → Crossing };

    // What a place of the array can hold is below this.
    ghost limit: { Field → ℕ };

    // What stands at a place.
    fn get(self, field: Field, place: u8) -> u64
        requires { place < places field }
        ensures value { result ≡ at (crossing self) field place }
        ensures upper_bound { result ≤ 255 };

    // With v at a place.
    fn set(self, field: Field, place: u8, v: u64) -> Self
        requires { (place < places field) × (v < limit field) }
        ensures { crossing result ≡ with_array (crossing self) field (set (array_of (crossing self) field) place v) };

    // Some place counts: trains, a flag on, a boom not up.
    fn any(self, field: Field) -> bool
        ensures { result ≡ any_of (crossing self) field };

    // With 0 at each place.
    fn clear(self, field: Field) -> Self
        ensures { crossing result ≡ with_array (crossing self) field (tab (places field) (λ t. 0)) };

    // A number.
    fn number(self, which: Number) -> u64
        ensures { result ≡ number_in (crossing self) which };

    // With v for a number.
    fn set_number(self, which: Number, v: u64) -> Self
        requires { v ≤ most which }
        ensures { crossing result ≡ with_number (crossing self) which v };

    // With v for a number where the test holds, otherwise as it is: one crossing, and no two that meet again.
    fn set_number_if(self, test: bool, which: Number, v: u64) -> Self
        requires { v ≤ most which }
        ensures { crossing result ≡ with_number (crossing self) which (cond test v (number_in (crossing self) which)) };

    // With a running count lowered by 1.
    fn lower(self, which: Number) -> Self
        ensures { crossing result ≡ with_number (crossing self) which (pred (number_in (crossing self) which)) };

    // Every boom of the kind is reported up.
    fn booms_up(self, kind: u8) -> bool
        ensures { result ≡ booms_up kind (boom (crossing self)) };

    // A value of the code has its arrays at their places.
    ghost sized: { (x : Self) (vs : List Val) → Is Self.row x vs → Sized (crossing x) };

    // Trains, flags and boom reports have room.
    ghost roomy: { (field : Field) → least_limit field ≤ limit field };
}
