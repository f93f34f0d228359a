// The site book read: its bytes to a fresh plant. Any bytes are taken.
#![tactic(auto)]

ghost use Rattle.std.specs.Prelude.{◌≡◌, ◌+◌, ◌*◌, ◌≤◌, ◌<◌, length, IfOk};
ghost use Rattle.machine.specs.Common.{all_below, word};
ghost use Rattle.machine.specs.Range.{entry_in};
ghost use Rattle.machine.specs.SiteBook.{book_entry, book_length, book_site, book_size, read, read_number};
ghost use Rattle.refusal.specs.Numbers.{number_of};
ghost use Rattle.book_read.specs.Readings.{reading_of};

use machine::{Entry, Plant, Site};
use refusal::{Refusal, refuse_if};
use settings::{count_in, entry_in};

// The number of 16 bits at a place of a book. Inside this crate alone: its two bytes are in the book.
fn word_at(b: &[u8], at: usize) -> u16
    requires { at + 1 < length b.now }
    ensures { result ≡ word b.now at }
{
    u16::from_le_bytes([b[at], b[at + 1]])
}

// A book of the length that its first byte states and of at most eight crossings (document 01, "Site book").
#[derive(Drop)]
struct Book<'a> {
    bytes: &'a [u8],
    ghost few: { book_size bytes.now ≤ 8 },
    ghost whole: { length bytes.now ≡ book_length (book_size bytes.now) },
}

impl<'a> Book<'a> {
    // The book of these bytes or what refuses it: number 1 if it is empty, then 2, 1, 3.
    #[tactic(auto, unfolding(machine::specs::SiteBook::read_number))]
    fn open(bytes: &'a [u8]) -> Result<Book<'a>, Refusal>
        ensures number { number_of result ≡ read_number bytes.now }
        ensures book { IfOk result (λ b. b.bytes ≡ bytes.entry) }
    {
        let Some(size) = bytes.first() else {
            return Err(Refusal::BadBookLength);
        };
        refuse_if(!count_in(*size), Refusal::BadCount)?;
        refuse_if(
            bytes.len() != 1 + 9 * usize::from(*size),
            Refusal::BadBookLength,
        )?;
        let book = Book { bytes };
        refuse_if(!book.entries_in(), Refusal::BadSetting)?;
        Ok(book)
    }

    // Entry i.
    #[tactic(auto, unfolding(machine::specs::SiteBook::book_entry))]
    fn entry(&self, i: usize) -> Entry
        requires { i < book_size self.now.bytes.now }
        ensures { result ≡ book_entry self.now.bytes.now i }
    {
        let n = usize::from(self.bytes[0]);
        let first = 1 + 3 * i;
        let second = 1 + 3 * n + 6 * i;
        Entry {
            kind: self.bytes[first],
            tracks: self.bytes[first + 1],
            mask: self.bytes[first + 2],
            pre: word_at(self.bytes, second),
            gap: word_at(self.bytes, second + 2),
            pause: word_at(self.bytes, second + 4),
        }
    }

    // Every entry is in its range.
    fn entries_in(&self) -> bool
        ensures { result ≡ all_below (book_size self.now.bytes.now) (λ i. entry_in (book_entry self.now.bytes.now i)) }
    {
        (0..usize::from(self.bytes[0])).all(|i| entry_in(self.entry(i)))
    }

    // The settings; entries past the last stay zero.
    fn site(&self) -> Site
        ensures { result ≡ book_site self.now.bytes.now }
    {
        let n = self.bytes[0];
        let mut entries = [Entry::default(); 8];
        for i in 0..usize::from(n) {
            entries[i] = self.entry(i);
        }
        Site { n, entries }
    }
}

// A book read: its fresh plant or what refuses it.
#[tactic(auto, unfolding(machine::specs::SiteBook::read))]
pub fn read(b: &[u8]) -> Result<Plant, Refusal>
    ensures { reading_of result ≡ read b.now }
{
    Ok(Plant::fresh(Book::open(b)?.site()))
}
