// The site book written: settings to its bytes, in a lent output.
// Any settings and any output are taken; a refused write leaves every lent byte.
#![tactic(auto)]

ghost use Rattle.std.specs.Prelude.{cond, ◌≡◌, ◌+◌, ◌*◌, ◌≤◌, ltb, length};
ghost use Rattle.std.proofs.lemmas.List.Edits.{sets};
ghost use Rattle.machine.specs.Common.{all_below, concat_below};
ghost use Rattle.machine.specs.Range.{entry_in, entry_zero};
ghost use Rattle.machine.specs.SiteBook.{
  book,
  book_length,
  first_part,
  second_part,
  setting,
  setting_in,
  write_number,
  written_book,
};
ghost use Rattle.refusal.specs.Numbers.{number_of};

use machine::{Entry, Site};
use refusal::{Refusal, refuse_if};
use settings::{count_in, entry_in, entry_zero};

// The entry at place i of n is in its range; past n it is zero.
fn setting_in(n: u8, i: usize, x: Entry) -> bool
    ensures { result ≡ cond (ltb i n) (entry_in x) (entry_zero x) }
{
    if i < usize::from(n) {
        entry_in(x)
    } else {
        entry_zero(x)
    }
}

// Every entry of the settings is in its range.
fn settings_in(s: Site) -> bool
    ensures { result ≡ all_below 8 (setting_in s) }
{
    let mut fine = true;
    for i in 0..8 {
        fine &= setting_in(s.n, i, s.entries[i]);
    }
    fine
}

// What refuses settings and an output: number 2, 3, 14.
#[tactic(auto, unfolding(machine::specs::SiteBook::write_number))]
fn check(s: Site, out: &[u8]) -> Result<(), Refusal>
    ensures { number_of result ≡ write_number s out.now }
{
    let fits = out.len() == 1 + 9 * usize::from(s.n);
    refuse_if(!count_in(s.n), Refusal::BadCount)?;
    refuse_if(!settings_in(s), Refusal::BadSetting)?;
    refuse_if(!fits, Refusal::BadOutputLength)
}

// The three bytes of an entry's first part, from a place on. Inside this crate alone: the output has room for them.
fn put_first(out: &mut [u8], at: usize, x: Entry)
    requires { at + 3 ≤ length out.old }
    ensures { out.new ≡ sets out.old at (first_part x) }
{
    out[at..at + 3].copy_from_slice(&[x.kind, x.tracks, x.mask]);
}

// The six bytes of an entry's second part, from a place on. Inside this crate alone: the output has room for them.
fn put_second(out: &mut [u8], at: usize, x: Entry)
    requires { at + 6 ≤ length out.old }
    ensures { out.new ≡ sets out.old at (second_part x) }
{
    let [pre_low, pre_high] = x.pre.to_le_bytes();
    let [gap_low, gap_high] = x.gap.to_le_bytes();
    let [pause_low, pause_high] = x.pause.to_le_bytes();
    out[at..at + 6].copy_from_slice(&[pre_low, pre_high, gap_low, gap_high, pause_low, pause_high]);
}

// The first array. Inside this crate alone: at most eight crossings, and the output has a book's length.
fn put_firsts(s: Site, out: &mut [u8])
    requires { (s.n ≤ 8) × (length out.old ≡ book_length s.n) }
    ensures { out.new ≡ sets out.old 1 (concat_below s.n (λ i. first_part (setting s i))) }
{
    for i in 0..usize::from(s.n) {
        put_first(out, 1 + 3 * i, s.entries[i]);
    }
}

// The second array. Inside this crate alone: at most eight crossings, and the output has a book's length.
fn put_seconds(s: Site, out: &mut [u8])
    requires { (s.n ≤ 8) × (length out.old ≡ book_length s.n) }
    ensures { out.new ≡ sets out.old (1 + 3 * s.n) (concat_below s.n (λ i. second_part (setting s i))) }
{
    let n = usize::from(s.n);
    for i in 0..n {
        put_second(out, 1 + 3 * n + 6 * i, s.entries[i]);
    }
}

// The whole book. Inside this crate alone: at most eight crossings, and the output has a book's length.
fn put_book(s: Site, out: &mut [u8])
    requires { (s.n ≤ 8) × (length out.old ≡ book_length s.n) }
    ensures { out.new ≡ book s }
{
    out[0] = s.n;
    put_firsts(s, out);
    put_seconds(s, out);
}

// A book written, or what refuses it: the lent bytes hold the book or, refused, what they held.
pub fn write(s: Site, out: &mut [u8]) -> Result<(), Refusal>
    ensures number { number_of result ≡ write_number s out.old }
    ensures bytes { out.new ≡ written_book s out.old }
{
    check(s, out)?;
    put_book(s, out);
    Ok(())
}
