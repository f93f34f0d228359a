// The settings of a site: what number 3 asks of an entry, and number 2 of the count. No function has a `requires`.
#![tactic(auto)]

ghost use Rattle.std.specs.Prelude.{◌&&◌, ◌≡◌, ◌^◌, leb, ltb};
ghost use Rattle.machine.specs.Range.{count_in, entry_in, entry_zero, gap_in, pre_in};

use machine::{Entry, kinds};

// Tracks 1 to 4, and no bit of the mask at or above that number.
fn tracks_in(tracks: u8, mask: u8) -> bool
    ensures { result ≡ (leb 1 tracks && leb tracks 4 && ltb mask (2 ^ tracks)) }
{
    match tracks {
        1 => mask < 2,
        2 => mask < 4,
        3 => mask < 8,
        4 => mask < 16,
        _ => false,
    }
}

// F: 1 to 180; 15 for booms under the 1959 sheet (document 02, T-09).
fn pre_in(kind: u8, f: u16) -> bool
    ensures { result ≡ pre_in kind f }
{
    if kinds::old_booms(kind) {
        f == 15
    } else {
        (1..=180).contains(&f)
    }
}

// G: 1 to 90 for kind 4, otherwise 0.
fn gap_in(kind: u8, g: u16) -> bool
    ensures { result ≡ gap_in kind g }
{
    if kind::four_booms(kind) {
        (1..=90).contains(&g)
    } else {
        g == 0
    }
}

// The settings of a crossing are in their ranges.
#[tactic(auto, unfolding(machine::specs::Range::entry_in))]
pub fn entry_in(s: Entry) -> bool
    ensures { result ≡ entry_in s }
{
    (1..=6).contains(&s.kind)
        & tracks_in(s.tracks, s.mask)
        & pre_in(s.kind, s.pre)
        & gap_in(s.kind, s.gap)
        & (s.pause <= 540)
}

// An entry past the last crossing: all zero.
#[tactic(auto, unfolding(machine::specs::Range::entry_zero))]
pub fn entry_zero(s: Entry) -> bool
    ensures { result ≡ entry_zero s }
{
    s == Entry::default()
}

// n is 1 to 8.
pub fn count_in(n: u8) -> bool
    ensures { result ≡ count_in n }
{
    (1..=8).contains(&n)
}
