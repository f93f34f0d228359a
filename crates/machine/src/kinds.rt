// Kinds (document 01, "Site book"; document 02, T-09), by the names of specs/Kinds.antt. What a kind has is asked by the tests of
// crates/kind, and by the one that the fresh plant needs, here.
ghost use Rattle.std.specs.Prelude.{◌≡◌};
ghost use Rattle.machine.specs.Kinds.{old_booms};

pub const LIGHTS: u8 = 1;

pub const HALF: u8 = 2;

pub const TWO_FULL: u8 = 3;

pub const FOUR_FULL: u8 = 4;

// Lights only under the 1959 sheet.
pub const OLD_LIGHTS: u8 = 5;

// Half booms under the 1959 sheet.
pub const OLD_HALF: u8 = 6;

// Booms under the 1959 sheet (document 02, T-09).
pub fn old_booms(kind: u8) -> bool
    ensures { result ≡ old_booms kind }
{
    kind == OLD_HALF
}
