// Hut against cabin (document 02, T-07): two sheets of one shift, compared stretch by stretch.
#![tactic(auto)]

ghost use Rattle.std.specs.Prelude.{◌≡◌, ◌≤◌, length};
ghost use Rattle.machine.specs.Shift.{agree};
ghost use Rattle.reader.specs.Whole.{Whole};
ghost use Rattle.agree.specs.Keyed.{HasKey, Keyed, compared, agreement_of};

use machine::Event;
use reader::SheetReader;
use refusal::{Refusal, refuse_if};

// The longest sheet that is compared, in events.
pub const LIMIT: usize = 256;

// The four bytes of an event as one number: 0 for a tick.
fn key(e: Event) -> u32
    ensures { HasKey e result }
{
    u32::from_le_bytes([e.code, e.crossing, e.place, e.value])
}

// The keys of a whole sheet that is not too long, with its size beside them: there is no heap.
fn keys(sheet: SheetReader) -> [u32; 256]
    requires { Whole sheet.sheet.now sheet.size × (sheet.size ≤ 256) }
    ensures keyed { Keyed result sheet.entry.sheet.now sheet.entry.size }
    ensures result_len { length result ≡ 256 }
{
    let mut keys = [0u32; 256];
    for k in 0..sheet.size {
        keys[k] = key(sheet.event_at(k));
    }
    keys
}

// Two shifts by their keys, stretch after stretch between their ticks: the first that fails.
fn compared(a: &[u32], b: &[u32]) -> Option<u16>
    requires { length a.now ≤ 256 }
    ensures { result ≡ compared a.now b.now }
{
    let mut k: u16 = 0;
    let mut cabin = b.split(|key| *key == 0);
    for x in a.split(|key| *key == 0) {
        match cabin.next() {
            Some(y) if stretch::alike(x, y) => k += 1,
            _ => return Some(k),
        }
    }
    cabin.next()?;
    Some(k)
}

// The hut's sheet against the cabin's: none, or the first stretch that fails.
pub fn agree(hut: &[u8], cabin: &[u8]) -> Result<Option<u16>, Refusal>
    ensures { agreement_of result ≡ agree hut.now cabin.now }
{
    let hut = SheetReader::open(hut)?;
    let cabin = SheetReader::open(cabin)?;
    refuse_if(LIMIT < hut.size, Refusal::ShiftTooLong)?;
    refuse_if(LIMIT < cabin.size, Refusal::ShiftTooLong)?;
    let a = keys(hut);
    let b = keys(cabin);
    Ok(compared(&a[..hut.size], &b[..cabin.size]))
}
