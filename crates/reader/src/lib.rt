// The event sheet: its size, and a reader that opens a whole sheet and hands out the event at a place (document 01, "Event sheet and
// program").
#![tactic(auto)]

ghost use Rattle.std.specs.Prelude.{◌≡◌, ◌≤◌, ◌<◌, length, IfOk};
ghost use Rattle.machine.specs.Sheet.{sheet_size, sheet_event, sheet_number};
ghost use Rattle.refusal.specs.Numbers.{number_of};
ghost use Rattle.reader.specs.Whole.{Whole};

use machine::Event;
use refusal::{Refusal, refuse_if};

// The longest sheet, in events.
pub const LIMIT: usize = 4096;

// The size that a sheet of at least two bytes states. For other crates alone.
pub fn size(sheet: &[u8]) -> usize
    requires { 2 ≤ length sheet.now }
    ensures value { result ≡ sheet_size sheet.now }
    ensures upper_bound { result < 65536 }
{
    usize::from(u16::from_le_bytes([sheet[0], sheet[1]]))
}

// A whole sheet and its size in events.
#[derive(Clone, Copy, Debug, PartialEq, Eq)]
pub struct SheetReader<'a> {
    pub sheet: &'a [u8],
    pub size: usize,
}

impl<'a> SheetReader<'a> {
    // The reader of a sheet of that size.
    pub fn new(sheet: &'a [u8], size: usize) -> SheetReader<'a>
        ensures { (result.sheet ≡ sheet.entry) × (result.size ≡ size) }
    {
        SheetReader { sheet, size }
    }

    // The reader of a sheet that is whole; the others are refused by 4, 2, 4.
    pub fn open(sheet: &'a [u8]) -> Result<SheetReader<'a>, Refusal>
        ensures number { number_of result ≡ sheet_number sheet.now 0 }
        ensures whole { IfOk result (λ r. (r.sheet ≡ sheet.entry) × Whole sheet.now r.size) }
    {
        refuse_if(sheet.len() < 2, Refusal::BadSheetLength)?;
        let m = size(sheet);
        refuse_if(LIMIT < m, Refusal::BadCount)?;
        refuse_if(sheet.len() != 2 + 4 * m, Refusal::BadSheetLength)?;
        Ok(SheetReader::new(sheet, m))
    }

    // The event at place k of a whole sheet. For other crates alone.
    pub fn event_at(self, k: usize) -> Event
        requires { Whole self.sheet.now self.size × (k < self.size) }
        ensures { result ≡ sheet_event self.entry.sheet.now k }
    {
        let triple = 2 + self.size + 3 * k;
        Event {
            code: self.sheet[2 + k],
            crossing: self.sheet[triple],
            place: self.sheet[triple + 1],
            value: self.sheet[triple + 2],
        }
    }
}
