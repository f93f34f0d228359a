// The words as a form of a crossing (crates/form).
#![tactic(auto, unfolding(crate::specs::Lanes::crossing_of))]

ghost use Rattle.std.specs.Prelude.{◌≡◌};
ghost use Rattle.form.specs.Forms.{least_limit};
ghost use Rattle.lane.specs.Lanes.{crossing_of};
ghost use Rattle.lane.specs.Words.{words_roomy, words_sized};

use crate::Lane;
use form::{Field, Form, Number};

impl Form for Lane {
    ghost crossing = { crossing_of };

    ghost limit = { least_limit };

    ghost sized = { λ l vs h. words_sized l };

    ghost roomy = { words_roomy };

    fn get(self, field: Field, place: u8) -> u64 {
        let at = u64::from(place);
        match field {
            Field::Calling => digits::at(self.calling, 8, at),
            Field::Waiting => digits::at(self.waiting, 8, at),
            Field::Route => digits::at(self.route, 1, at),
            Field::Occupied => digits::at(self.occupied, 1, at),
            Field::Unsure => digits::at(self.unsure, 1, at),
            Field::Booms => digits::at(self.booms, 2, at),
            Field::Lamps => digits::at(self.lamps, 1, at),
        }
    }

    fn set(self, field: Field, place: u8, v: u64) -> Self {
        let at = u64::from(place);
        let mut d = self;
        match field {
            Field::Calling => d.calling = digits::put(self.calling, 8, 4, at, v),
            Field::Waiting => d.waiting = digits::put(self.waiting, 8, 4, at, v),
            Field::Route => d.route = digits::put(self.route, 1, 4, at, v),
            Field::Occupied => d.occupied = digits::put(self.occupied, 1, 4, at, v),
            Field::Unsure => d.unsure = digits::put(self.unsure, 1, 4, at, v),
            Field::Booms => d.booms = digits::put(self.booms, 2, 4, at, v),
            Field::Lamps => d.lamps = digits::put(self.lamps, 1, 7, at, v),
        }
        d
    }

    fn any(self, field: Field) -> bool {
        match field {
            Field::Calling => 0 < self.calling % 4294967296,
            Field::Waiting => 0 < self.waiting % 4294967296,
            Field::Route => 0 < self.route % 16,
            Field::Occupied => 0 < self.occupied % 16,
            Field::Unsure => 0 < self.unsure % 16,
            Field::Booms => 0 < self.booms % 256,
            Field::Lamps => 0 < self.lamps % 128,
        }
    }

    fn clear(self, field: Field) -> Self {
        let mut d = self;
        match field {
            Field::Calling => d.calling = 0,
            Field::Waiting => d.waiting = 0,
            Field::Route => d.route = 0,
            Field::Occupied => d.occupied = 0,
            Field::Unsure => d.unsure = 0,
            Field::Booms => d.booms = 0,
            Field::Lamps => d.lamps = 0,
        }
        d
    }

    fn number(self, which: Number) -> u64 {
        match which {
            Number::Kiosk => self.kiosk,
            Number::Operator => self.operator,
            Number::Countdown => self.countdown,
            Number::Phase => self.phase,
            Number::Timer => self.timer,
            Number::Left => self.left,
            Number::Out => self.out,
        }
    }

    fn set_number(self, which: Number, v: u64) -> Self {
        let mut d = self;
        match which {
            Number::Kiosk => d.kiosk = v,
            Number::Operator => d.operator = v,
            Number::Countdown => d.countdown = v,
            Number::Phase => d.phase = v,
            Number::Timer => d.timer = v,
            Number::Left => d.left = v,
            Number::Out => d.out = v,
        }
        d
    }

    fn set_number_if(self, test: bool, which: Number, v: u64) -> Self {
        let mut d = self;
        match which {
            Number::Kiosk => d.kiosk = if test { v } else { self.kiosk },
            Number::Operator => d.operator = if test { v } else { self.operator },
            Number::Countdown => d.countdown = if test { v } else { self.countdown },
            Number::Phase => d.phase = if test { v } else { self.phase },
            Number::Timer => d.timer = if test { v } else { self.timer },
            Number::Left => d.left = if test { v } else { self.left },
            Number::Out => d.out = if test { v } else { self.out },
        }
        d
    }

    fn lower(self, which: Number) -> Self {
        let mut d = self;
        match which {
            Number::Kiosk => d.kiosk = self.kiosk.saturating_sub(1),
            Number::Operator => d.operator = self.operator.saturating_sub(1),
            Number::Countdown => d.countdown = self.countdown.saturating_sub(1),
            Number::Phase => d.phase = self.phase.saturating_sub(1),
            Number::Timer => d.timer = self.timer.saturating_sub(1),
            Number::Left => d.left = self.left.saturating_sub(1),
            Number::Out => d.out = self.out.saturating_sub(1),
        }
        d
    }

    fn booms_up(self, kind: u8) -> bool {
        if kind::lights_only(kind) {
            return true;
        }
        if kind::four_booms(kind) {
            return self.booms % 256 == 0;
        }
        self.booms % 16 == 0
    }
}
