// The crossing of the plant as a form.
ghost use Rattle.std.specs.Prelude.{◌≡◌, ◌≤◌, ◌<◌, get_or, ltb, set};
ghost use Rattle.machine.specs.Common.{any_below};
ghost use Rattle.machine.specs.Plant.{is_on};
ghost use Rattle.form.specs.Plain.{byte_limit, bytes_roomy, bytes_sized};

use crate::{Field, Form, Number};
use machine::Crossing;

// Some place of four is not 0.
fn any_counted(a: [u8; 4]) -> bool
    ensures { result ≡ any_below 4 (λ t. ltb 0 (get_or a t 0)) }
{
    (0 < a[0]) | (0 < a[1]) | (0 < a[2]) | (0 < a[3])
}

// Some flag of four is on.
fn any_on(a: [u8; 4]) -> bool
    ensures { result ≡ any_below 4 (λ t. is_on (get_or a t 0)) }
{
    (a[0] == 1) | (a[1] == 1) | (a[2] == 1) | (a[3] == 1)
}

// What stands at a place. The array alone is copied: with the place inside the record, the compiler would lay all of it onto the stack.
fn found<const N: usize>(a: [u8; N], at: usize) -> u64
    requires { at < N }
    ensures value { result ≡ get_or a.entry at 0 }
    ensures upper_bound { result ≤ 255 }
{
    u64::from(a[at])
}

// The array with a byte at a place.
fn stored<const N: usize>(a: [u8; N], at: usize, byte: u8) -> [u8; N]
    requires { at < N }
    ensures { result ≡ set a.entry at byte }
{
    let mut b = a;
    b[at] = byte;
    b
}

impl Form for Crossing {
    ghost crossing = { λ c. c };

    ghost limit = { byte_limit };

    ghost sized = { bytes_sized };

    ghost roomy = { bytes_roomy };

    fn get(self, field: Field, place: u8) -> u64 {
        let at = usize::from(place);
        match field {
            Field::Calling => found(self.calling, at),
            Field::Waiting => found(self.waiting, at),
            Field::Route => found(self.route, at),
            Field::Occupied => found(self.occupied, at),
            Field::Unsure => found(self.unsure, at),
            Field::Booms => found(self.booms, at),
            Field::Lamps => found(self.lamps, at),
        }
    }

    fn set(self, field: Field, place: u8, v: u64) -> Self {
        let at = usize::from(place);
        let byte = v as u8;
        let mut d = self;
        match field {
            Field::Calling => d.calling = stored(self.calling, at, byte),
            Field::Waiting => d.waiting = stored(self.waiting, at, byte),
            Field::Route => d.route = stored(self.route, at, byte),
            Field::Occupied => d.occupied = stored(self.occupied, at, byte),
            Field::Unsure => d.unsure = stored(self.unsure, at, byte),
            Field::Booms => d.booms = stored(self.booms, at, byte),
            Field::Lamps => d.lamps = stored(self.lamps, at, byte),
        }
        d
    }

    fn any(self, field: Field) -> bool {
        match field {
            Field::Calling => any_counted(self.calling),
            Field::Waiting => any_counted(self.waiting),
            Field::Route => any_on(self.route),
            Field::Occupied => any_on(self.occupied),
            Field::Unsure => any_on(self.unsure),
            Field::Booms => any_counted(self.booms),
            Field::Lamps => {
                let lamps = self.lamps;
                any_on([lamps[0], lamps[1], lamps[2], lamps[3]])
                    | (lamps[4] == 1)
                    | (lamps[5] == 1)
                    | (lamps[6] == 1)
            }
        }
    }

    fn clear(self, field: Field) -> Self {
        let mut d = self;
        match field {
            Field::Calling => d.calling = [0; 4],
            Field::Waiting => d.waiting = [0; 4],
            Field::Route => d.route = [0; 4],
            Field::Occupied => d.occupied = [0; 4],
            Field::Unsure => d.unsure = [0; 4],
            Field::Booms => d.booms = [0; 4],
            Field::Lamps => d.lamps = [0; 7],
        }
        d
    }

    fn number(self, which: Number) -> u64 {
        match which {
            Number::Kiosk => u64::from(self.kiosk),
            Number::Operator => u64::from(self.operator),
            Number::Countdown => u64::from(self.countdown),
            Number::Phase => u64::from(self.phase),
            Number::Timer => u64::from(self.timer),
            Number::Left => u64::from(self.left),
            Number::Out => u64::from(self.out),
        }
    }

    fn set_number(self, which: Number, v: u64) -> Self {
        let mut d = self;
        match which {
            Number::Kiosk => d.kiosk = v as u8,
            Number::Operator => d.operator = v as u8,
            Number::Countdown => d.countdown = v as u16,
            Number::Phase => d.phase = v as u8,
            Number::Timer => d.timer = v as u16,
            Number::Left => d.left = v as u16,
            Number::Out => d.out = v as u16,
        }
        d
    }

    fn set_number_if(self, test: bool, which: Number, v: u64) -> Self {
        let mut d = self;
        match which {
            Number::Kiosk => d.kiosk = if test { v as u8 } else { self.kiosk },
            Number::Operator => d.operator = if test { v as u8 } else { self.operator },
            Number::Countdown => d.countdown = if test { v as u16 } else { self.countdown },
            Number::Phase => d.phase = if test { v as u8 } else { self.phase },
            Number::Timer => d.timer = if test { v as u16 } else { self.timer },
            Number::Left => d.left = if test { v as u16 } else { self.left },
            Number::Out => d.out = if test { v as u16 } else { self.out },
        }
        d
    }

    fn lower(self, which: Number) -> Self {
        let mut d = self;
        match which {
            Number::Kiosk => d.kiosk = self.kiosk.saturating_sub(1),
            Number::Operator => d.operator = self.operator.saturating_sub(1),
            Number::Countdown => d.countdown = self.countdown.saturating_sub(1),
            Number::Phase => d.phase = self.phase.saturating_sub(1),
            Number::Timer => d.timer = self.timer.saturating_sub(1),
            Number::Left => d.left = self.left.saturating_sub(1),
            Number::Out => d.out = self.out.saturating_sub(1),
        }
        d
    }

    fn booms_up(self, kind: u8) -> bool {
        let booms = self.booms;
        booms::up(kind, booms)
    }
}
