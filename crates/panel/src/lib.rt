// The panel: a row for each crossing, drawn into a lent output (document 01, "Panel"), as a sender sees it (document 02, T-04).
#![tactic(auto)]

ghost use Rattle.std.specs.Prelude.{◌≡◌, ◌*◌, ◌≤◌, length};
ghost use Rattle.machine.specs.Panel.{panel, view, draw_number, drawn};
ghost use Rattle.refusal.specs.Numbers.{number_of};

use machine::{Plant, senders};
use refusal::Refusal;

// Draws what a sender sees of a plant of at most eight crossings into an output of its length. For other crates alone.
pub fn show(p: Plant, sender: u8, out: &mut [u8])
    requires { (p.site.n ≤ 8) × (length out.old ≡ 16 * p.site.n) }
    ensures { out.new ≡ view sender p }
{
    let site = p.site;
    let n = usize::from(site.n);
    for i in 0..n {
        let row = rights::seen(
            sender,
            panel_row::row(p.beat, site.entries[i], p.crossings[i]),
        );
        out[16 * i..16 * i + 16].copy_from_slice(&row);
    }
}

// Draws the whole panel, that of a sheet, as detection sees it. For other crates alone.
pub fn fill(p: Plant, out: &mut [u8])
    requires { (p.site.n ≤ 8) × (length out.old ≡ 16 * p.site.n) }
    ensures { out.new ≡ panel p }
{
    show(p, senders::DETECTION, out);
}

// Draws what a sender sees; where it is refused (15, 16, 14) the output is left as it was.
pub fn draw(p: Plant, sender: u8, out: &mut [u8]) -> Result<(), Refusal>
    ensures number { number_of result ≡ draw_number p sender out.old }
    ensures bytes { out.new ≡ drawn p sender out.old }
{
    if !plant::in_range(p) {
        return Err(Refusal::OutOfRange);
    }
    if !rights::known(sender) {
        return Err(Refusal::UnknownSender);
    }
    if out.len() != 16 * usize::from(p.site.n) {
        return Err(Refusal::BadOutputLength);
    }
    show(p, sender, out);
    Ok(())
}
