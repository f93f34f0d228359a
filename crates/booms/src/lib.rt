// Tests over the booms that a kind has (document 01, "What the plant holds").
#![tactic(auto)]

ghost use Rattle.std.specs.Prelude.{◌||◌, ◌≡◌, eqb, get_or};
ghost use Rattle.machine.specs.Reports.{moving, down};
ghost use Rattle.machine.specs.Plant.{each_boom, booms_up, booms_down, booms_closed};
ghost use Rattle.booms.specs.Sides.{on_sides};

use machine::reports;

// A test that holds of each boom that the kind has: right of the road, where there are any, and left with four booms.
fn each(kind: u8, right: bool, left: bool) -> bool
    ensures { result ≡ on_sides kind right left }
{
    if kind::lights_only(kind) {
        return true;
    }
    if kind::four_booms(kind) {
        return right & left;
    }
    right
}

// Every boom was last reported so.
fn all(kind: u8, booms: [u8; 4], report: u8) -> bool
    ensures { result ≡ each_boom kind (λ b. eqb (get_or booms b 0) report) }
{
    each(
        kind,
        (booms[0] == report) & (booms[1] == report),
        (booms[2] == report) & (booms[3] == report),
    )
}

// Every boom is reported up.
pub fn up(kind: u8, booms: [u8; 4]) -> bool
    ensures { result ≡ booms_up kind (λ b. get_or booms b 0) }
{
    all(kind, booms, reports::UP)
}

// Every boom is reported down.
pub fn down(kind: u8, booms: [u8; 4]) -> bool
    ensures { result ≡ booms_down kind (λ b. get_or booms b 0) }
{
    all(kind, booms, reports::DOWN)
}

// A half boom is closed: reported moving or down (document 02, T-02).
fn half_closed(report: u8) -> bool
    ensures { result ≡ (eqb report moving || eqb report down) }
{
    matches!(report, reports::MOVING | reports::DOWN)
}

// As the kind demands: half booms each moving or down, full booms all down.
pub fn closed(kind: u8, booms: [u8; 4]) -> bool
    ensures { result ≡ booms_closed kind (λ b. get_or booms b 0) }
{
    if kind::half_booms(kind) {
        return half_closed(booms[0]) & half_closed(booms[1]);
    }
    down(kind, booms)
}
