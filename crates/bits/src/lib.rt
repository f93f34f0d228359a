// Bits of a byte, by tests.
#![tactic(auto)]

ghost use Rattle.std.specs.Prelude.{◌≡◌, ◌+◌, ◌≤◌};
ghost use Rattle.machine.specs.Common.{bit};

// A value where the test holds, otherwise 0.
pub fn value(on: bool, v: u8) -> u8
    ensures value { result ≡ bit on v }
    ensures upper_bound { result ≤ v }
{
    if on { v } else { 0 }
}

// Four tests as bits 1, 2, 4 and 8.
pub fn flags(a: bool, b: bool, c: bool, d: bool) -> u8
    ensures { result ≡ bit a 1 + bit b 2 + bit c 4 + bit d 8 }
{
    value(a, 1) + value(b, 2) + value(c, 4) + value(d, 8)
}
