// What a signal shows (document 01, "Panel").
#![tactic(auto)]

ghost use Rattle.std.specs.Prelude.{cond, ◌≡◌, eqb};
ghost use Rattle.machine.specs.Common.{bit};
ghost use Rattle.machine.specs.Panel.{amber};

use machine::aspects;

// White in normal position, else red; dark if that lamp is dead.
pub fn road(normal: bool, white: bool, red: bool) -> u8
    ensures { result ≡ cond normal (bit white 1) (bit red 2) }
{
    if normal {
        return bits::value(white, 1);
    }
    bits::value(red, 2)
}

// Passable when secured, else stop; dark if that lamp is dead.
pub fn signal(secured: bool, white: bool, red: bool) -> u8
    ensures { result ≡ cond secured (bit white 2) (bit red 1) }
{
    if secured {
        return bits::value(white, 2);
    }
    bits::value(red, 1)
}

// The train signal of the 1959 sheet (document 02, T-09): white, otherwise amber; dark if that lamp is dead.
pub fn control(white: bool, lamp: bool) -> u8
    ensures { result ≡ cond white 2 (bit lamp amber) }
{
    if white {
        return 2;
    }
    bits::value(lamp, aspects::AMBER)
}

// White with a passable signal, else violet; under the 1959 sheet as the train signal (document 02, T-09).
pub fn distant(old: bool, signal: u8) -> u8
    ensures { result ≡ cond old signal (cond (eqb signal 2) 2 1) }
{
    if old {
        return signal;
    }
    if signal == 2 { 2 } else { 1 }
}
