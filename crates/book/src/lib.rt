// The site book read and written in turn.
// Any bytes, any settings and any lent output are taken; a refused call leaves every lent byte.
#![tactic(auto)]

ghost use Rattle.std.specs.Prelude.{◌≡◌};
ghost use Rattle.machine.specs.SiteBook.{written_book};
ghost use Rattle.refusal.specs.Numbers.{number_of};
ghost use Rattle.book_read.specs.Readings.{reading_of};
ghost use Rattle.book.specs.Copies.{copied, copy_number, reread};

use machine::{Plant, Site};
use refusal::Refusal;

// A book read, and its settings written: where the book is taken and the output has its length, the output holds the same bytes.
pub fn copy(b: &[u8], out: &mut [u8]) -> Result<(), Refusal>
    ensures number { number_of result ≡ copy_number b.now out.old }
    ensures bytes { out.new ≡ copied b.now out.old }
{
    let plant = book_read::read(b)?;
    book_write::write(plant.site, out)
}

// Settings written, and the book read back: where the settings are taken, the fresh plant is that of the same settings.
pub fn reread(s: Site, out: &mut [u8]) -> Result<Plant, Refusal>
    ensures reading { reading_of result ≡ reread s out.old }
    ensures bytes { out.new ≡ written_book s out.old }
{
    book_write::write(s, out)?;
    book_read::read(out)
}
