// Several small numbers as the digits of one (specs/Digits.antt): bytes, pairs of bits and bits. A word is read and written
// whole, where an array at a place that is not known is not. The width of a digit, or its base, is a constant of the caller.
#![tactic(auto)]

ghost use Rattle.std.specs.Prelude.{◌≡◌, ◌*◌, ◌^◌, ◌≤◌, ◌<◌, set};
ghost use Rattle.digits.specs.Digits.{digit, digits, joined};

// Digit t of a word, digits of width bits.
pub fn at(w: u64, width: u64, t: u64) -> u64
    requires { (width < 64) × (width * t < 64) }
    ensures value { result ≡ digit (2 ^ width) w t }
    ensures upper_bound { result < 2 ^ width }
{
    (w >> (width * t)) % (1 << width)
}

// A word of n digits of width bits, with v for digit t.
pub fn put(w: u64, width: u64, n: u64, t: u64, v: u64) -> u64
    requires { (width * n ≤ 32) × (t < n) × (v < 2 ^ width) }
    ensures { digits (2 ^ width) n result ≡ set (digits (2 ^ width) n w) t v }
{
    let low = w % (1 << (width * n));
    low - (at(low, width, t) << (width * t)) + (v << (width * t))
}

// The word of N digits, of eight at most.
pub fn join<const N: usize>(a: [u8; N], base: u64) -> u64
    requires { (base ≤ 256) × (N ≤ 8) }
    ensures { result ≡ joined base a.entry }
{
    let mut word: u64 = 0;
    for i in 0..N {
        word = u64::from(a[N - 1 - i]) + base * word;
    }
    word
}

// The lowest N digits of a word.
pub fn part<const N: usize>(w: u64, base: u64) -> [u8; N]
    requires { (1 ≤ base) × (base ≤ 256) }
    ensures { result ≡ digits base N w }
{
    let mut found = [0; N];
    let mut rest = w;
    for i in 0..N {
        found[i] = (rest % base) as u8;
        rest /= base;
    }
    found
}
