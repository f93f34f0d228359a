// The preview (document 02, T-03, T-04): what one event would answer and draw, done on a copy. Any plant, any sender, any four
// bytes, any output.
#![tactic(auto)]

ghost use Rattle.std.specs.Prelude.{◌≡◌};
ghost use Rattle.machine.specs.Preview.{preview_number, preview_written, preview_panel};
ghost use Rattle.refusal.specs.Numbers.{number_of};
ghost use Rattle.preview.specs.Counts.{count_of};

use machine::{Event, Plant};
use refusal::{Refusal, refuse_if};

// Previews one event of a sender: the trains that it would write off. Refused with 15, 16, 14 or the event's own number, with the
// output left as it was.
pub fn preview(p: Plant, sender: u8, e: Event, out: &mut [u8]) -> Result<u32, Refusal>
    ensures number { number_of result ≡ preview_number p sender e out.old }
    ensures written { count_of result ≡ preview_written p sender e out.old }
    ensures bytes { out.new ≡ preview_panel p sender e out.old }
{
    refuse_if(!plant::in_range(p), Refusal::OutOfRange)?;
    refuse_if(!rights::known(sender), Refusal::UnknownSender)?;
    let n = usize::from(p.site.n);
    refuse_if(out.len() != 16 * n, Refusal::BadOutputLength)?;
    let t = event::answer(p, sender, e)?;
    let after = t.plant;
    panel::show(after, sender, out);
    Ok(t.written)
}
