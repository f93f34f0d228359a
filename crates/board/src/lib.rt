// Board distance to the metre (document 02, T-08): source document 000, section 3.4.3, by whole numbers.
#![tactic(auto)]

ghost use Rattle.std.specs.Prelude.{◌≡◌, ◌≤◌, pos, nat_abs, ◌+ℤ◌};
ghost use Rattle.machine.specs.Board.{ratio, full_tens, board_number, board_distance};
ghost use Rattle.refusal.specs.Numbers.{number_of};
ghost use Rattle.board.specs.Distances.{distance_of};
ghost use Rattle.setting_out.specs.SettingOut.{Retardation, Gradient, slowing, top, bottom};

use refusal::Refusal;

// 19, speed not 1 to 120 km/h; 20, retardation not 500 to 1,500 mm/s2; 21, gradient not -30 to 30 per mille; in that order.
fn checked(speed: u16, retardation: u16, gradient: i16) -> Result<(), Refusal>
    ensures { number_of result ≡ board_number speed retardation gradient }
{
    if !((1 <= speed) & (speed <= 120)) {
        return Err(Refusal::BadSpeed);
    }
    if !((500 <= retardation) & (retardation <= 1500)) {
        return Err(Refusal::BadRetardation);
    }
    if !((-30 <= gradient) & (gradient <= 30)) {
        return Err(Refusal::BadGradient);
    }
    Ok(())
}

// The gradient above -30.
fn raised(gradient: i16) -> u64
    requires { Gradient gradient }
    ensures { result ≡ nat_abs (gradient +ℤ pos 30) }
{
    (gradient + 30) as u64
}

// D + 9.81 H / 1000 in hundred-thousandths of a m/s2: 100 D + 981 H.
fn slowing(retardation: u16, gradient: i16) -> u64
    requires { Retardation retardation × Gradient gradient }
    ensures { result ≡ slowing retardation gradient }
{
    100 * u64::from(retardation) + 981 * raised(gradient) - 29430
}

// The formula, cleared, up to a full 10 m. No number on the way is above 12,197,442,599.
fn metres(speed: u16, q: u64) -> u16
    requires { (speed ≤ 120) × (20570 ≤ q) × (q ≤ 179430) }
    ensures { result ≡ full_tens (ratio (top speed q) (bottom q)) }
{
    let v = u64::from(speed);
    let top = 625000 * (v * v) + 135 * (v * q);
    let tenfold = 1620 * q;
    (10 * top.div_ceil(tenfold)) as u16
}

// The distance of the board: speed in km/h, retardation in mm/s2, gradient in per mille, a fall negative.
pub fn distance(speed: u16, retardation: u16, gradient: i16) -> Result<u16, Refusal>
    ensures { distance_of result ≡ board_distance speed retardation gradient }
{
    checked(speed, retardation, gradient)?;
    Ok(metres(speed, slowing(retardation, gradient)))
}
