// What a kind and a mask give a crossing: its booms, the sheet that it is under (document 02, T-09) and its dependent tracks
// (document 01, "Site book"). Code asks these tests, never which number a kind is.
#![tactic(auto)]

ghost use Rattle.std.specs.Prelude.{◌≡◌};
ghost use Rattle.machine.specs.Kinds.{lights_only, half_booms, four_booms, old_sheet, boom_count, lamp_count};
ghost use Rattle.machine.specs.Plant.{dependent};

use machine::{Entry, kinds};

// Track t depends on a route: bit t of the mask.
pub fn dependent(s: Entry, t: usize) -> bool
    ensures { result ≡ dependent s t }
{
    t < 8 && (s.mask >> t) % 2 == 1
}

// Lights only: a kind without booms.
pub fn lights_only(kind: u8) -> bool
    ensures { result ≡ lights_only kind }
{
    matches!(kind, kinds::LIGHTS | kinds::OLD_LIGHTS)
}

// Booms over half of the road.
pub fn half_booms(kind: u8) -> bool
    ensures { result ≡ half_booms kind }
{
    matches!(kind, kinds::HALF | kinds::OLD_HALF)
}

// Booms left of the road too.
pub fn four_booms(kind: u8) -> bool
    ensures { result ≡ four_booms kind }
{
    kind == kinds::FOUR_FULL
}

// Under the 1959 sheet (document 02, T-09).
pub fn old_sheet(kind: u8) -> bool
    ensures { result ≡ old_sheet kind }
{
    matches!(kind, kinds::OLD_LIGHTS | kinds::OLD_HALF)
}

// The booms that a kind has.
pub fn boom_count(kind: u8) -> u8
    ensures { result ≡ boom_count kind }
{
    if lights_only(kind) {
        return 0;
    }
    if four_booms(kind) { 4 } else { 2 }
}

// The lamps that a kind has: those of the booms are reported under the 1959 sheet alone (document 02, T-09).
pub fn lamp_count(kind: u8) -> u8
    ensures { result ≡ lamp_count kind }
{
    if kinds::old_booms(kind) { 7 } else { 5 }
}
