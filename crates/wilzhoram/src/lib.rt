// The engine for programs in C and Rust: the eight calls of include/wilzhoram.h. Each is thin over the call that does the work, and
// lays its answer or its refusal into the struct that C reads: a refusal by its number, with what is beside it as it was given or 0.
// Any plant, any settings, any sender (T-04), any bytes; a refused call leaves every lent byte.
#![tactic(auto)]

ghost use Rattle.std.specs.Prelude.{◌≡◌};
ghost use Rattle.machine.specs.Board.{board_distance};
ghost use Rattle.machine.specs.Events.{sent};
ghost use Rattle.machine.specs.Panel.{draw_number, drawn};
ghost use Rattle.machine.specs.Preview.{preview_number, preview_written, preview_panel};
ghost use Rattle.machine.specs.Sheet.{run, run_panel};
ghost use Rattle.machine.specs.Shift.{agree};
ghost use Rattle.machine.specs.Plant.{fresh_plant};
ghost use Rattle.machine.specs.SiteBook.{no_site, read, write_number, written_book};
ghost use Rattle.machine.specs.Step.{step};
ghost use Rattle.refusal.specs.Numbers.{number_of};
ghost use Rattle.wilzhoram.specs.Version.{version};

use machine::{
    Agreement, Answer, BoardDistance, Crossing, Event, Plant, Preview, Reading, Run, Site,
};
use refusal::Refusal;

// The number of a call that answers nothing else.
fn number(answer: Result<(), Refusal>) -> u8
    ensures { result ≡ number_of answer }
{
    match answer {
        Ok(()) => 0,
        Err(refusal) => refusal.number(),
    }
}

// The fresh plant of a site of no crossings: all zero.
fn no_plant() -> Plant
    ensures { result ≡ fresh_plant no_site }
{
    Plant {
        site: Site::default(),
        beat: 0,
        crossings: [Crossing::default(); 8],
    }
}

// The version of these calls. Its name holds the number, so that a program of another version does not link.
#[unsafe(no_mangle)]
pub extern "C" fn wilzhoram_version_10900() -> u32
    ensures { result ≡ version }
{
    10900
}

// A site book read: its number and its fresh plant.
#[unsafe(no_mangle)]
pub extern "C" fn wilzhoram_read(book: &[u8]) -> Reading
    ensures { result ≡ read book.now }
{
    match book_read::read(book) {
        Ok(plant) => Reading { number: 0, plant },
        Err(refusal) => Reading {
            number: refusal.number(),
            plant: no_plant(),
        },
    }
}

// Settings written as a site book into a lent output.
#[unsafe(no_mangle)]
pub extern "C" fn wilzhoram_write(site: Site, book: &mut [u8]) -> u8
    ensures number { result ≡ write_number site book.old }
    ensures bytes { book.new ≡ written_book site book.old }
{
    number(book_write::write(site, book))
}

// One event of a sender: its number, the trains written off and the plant after it.
#[unsafe(no_mangle)]
pub extern "C" fn wilzhoram_event(plant: Plant, sender: u8, event: Event) -> Answer
    ensures { result ≡ step plant (sent sender event) }
{
    match event::handle(plant, sender, event) {
        Ok(taken) => Answer {
            number: 0,
            written: taken.written,
            plant: taken.plant,
        },
        Err(refusal) => Answer {
            number: refusal.number(),
            written: 0,
            plant,
        },
    }
}

// What a sender sees of the panel, drawn into a lent output.
#[unsafe(no_mangle)]
pub extern "C" fn wilzhoram_draw(plant: Plant, sender: u8, panel: &mut [u8]) -> u8
    ensures number { result ≡ draw_number plant sender panel.old }
    ensures bytes { panel.new ≡ drawn plant sender panel.old }
{
    number(panel::draw(plant, sender, panel))
}

// One event of a sender previewed (T-03): its number and the trains written off, and what the sender would then see in a lent
// output.
#[unsafe(no_mangle)]
pub extern "C" fn wilzhoram_preview(
    plant: Plant,
    sender: u8,
    event: Event,
    panel: &mut [u8],
) -> Preview
    ensures number { result.number ≡ preview_number plant sender event panel.old }
    ensures written { result.written ≡ preview_written plant sender event panel.old }
    ensures bytes { panel.new ≡ preview_panel plant sender event panel.old }
{
    match preview::preview(plant, sender, event, panel) {
        Ok(written) => Preview { number: 0, written },
        Err(refusal) => Preview {
            number: refusal.number(),
            written: 0,
        },
    }
}

// A sheet run, and the panel after its last event drawn into a lent output.
#[unsafe(no_mangle)]
pub extern "C" fn wilzhoram_run(plant: Plant, sheet: &[u8], panel: &mut [u8]) -> Run
    ensures answer { result ≡ run plant sheet.now panel.old }
    ensures bytes { panel.new ≡ run_panel plant sheet.now panel.old }
{
    match sheet::run(plant, sheet, panel) {
        Ok(ran) => Run {
            number: 0,
            plant: ran.plant,
            taken: ran.taken,
            refused: ran.refused,
            written: ran.written,
        },
        Err(refusal) => Run {
            number: refusal.number(),
            plant,
            taken: 0,
            refused: 0,
            written: 0,
        },
    }
}

// The hut's sheet of a shift against the cabin's (T-07): whether they agree, or the first stretch that fails.
#[unsafe(no_mangle)]
pub extern "C" fn wilzhoram_agree(hut: &[u8], cabin: &[u8]) -> Agreement
    ensures { result ≡ agree hut.now cabin.now }
{
    match agree::agree(hut, cabin) {
        Ok(failing) => Agreement {
            number: 0,
            agreed: failing.is_none(),
            stretch: failing.unwrap_or(0),
        },
        Err(refusal) => Agreement {
            number: refusal.number(),
            agreed: false,
            stretch: 0,
        },
    }
}

// The distance of an arrow board in metres (T-08): speed in km/h, retardation in mm/s2, gradient in per mille, a fall negative.
#[unsafe(no_mangle)]
pub extern "C" fn wilzhoram_board_distance(
    speed: u16,
    retardation: u16,
    gradient: i16,
) -> BoardDistance
    ensures { result ≡ board_distance speed retardation gradient }
{
    match board::distance(speed, retardation, gradient) {
        Ok(distance) => BoardDistance {
            number: 0,
            distance,
        },
        Err(refusal) => BoardDistance {
            number: refusal.number(),
            distance: 0,
        },
    }
}
