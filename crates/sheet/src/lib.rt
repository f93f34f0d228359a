// The sheet run: a plant, a sheet of events and a lent panel (document 01, "Event sheet and program").
#![tactic(auto)]

ghost use Rattle.std.specs.Prelude.{true, ◌≡◌};
ghost use Rattle.machine.specs.Range.{in_range};
ghost use Rattle.machine.specs.Sheet.{sheet_event, ran, run, run_panel};
ghost use Rattle.reader.specs.Whole.{Whole};
ghost use Rattle.sheet.specs.Runs.{taken_run, run_of};

use machine::Plant;
use reader::SheetReader;
use refusal::{Refusal, refuse_if};

// The plant after the last event, and the counts.
#[derive(Clone, Copy)]
pub struct Ran {
    pub plant: Plant,
    pub taken: u16,
    pub refused: u16,
    pub written: u32,
}

// A way to play each event of a whole sheet in turn, from a plant in range, with every right (document 02, T-04).
pub trait Play {
    fn play(p: Plant, sheet: SheetReader) -> Ran
        requires { (in_range p ≡ true) × Whole sheet.sheet.now sheet.size }
        ensures { taken_run result ≡ ran p (sheet_event sheet.entry.sheet.now) sheet.entry.size };
}

// Event by event over the plant's own arrays.
pub struct Plain;

impl Play for Plain {
    fn play(p: Plant, sheet: SheetReader) -> Ran {
        let site = p.site;
        let mut beat = p.beat;
        let mut crossings = p.crossings;
        let mut taken: u16 = 0;
        let mut refused: u16 = 0;
        let mut written: u32 = 0;
        for k in 0..sheet.size {
            let e = sheet.event_at(k);
            let j = usize::from(e.crossing % 8);
            let s = site.entries[j];
            let c = crossings[j];
            let Ok(t) = verdict::judge(site.n, s, c, e) else {
                refused += 1;
                continue;
            };
            taken += 1;
            if t.code == 0 {
                let all = plant_tick::tick_all(site, beat, crossings);
                crossings = all.crossings;
                beat = all.beat;
                written += all.written;
                continue;
            }
            let off = effect::written_off(c, t);
            let d = effect::apply(s, c, t);
            crossings[j] = d;
            written += off;
        }
        Ran {
            plant: Plant {
                site,
                beat,
                crossings,
            },
            taken,
            refused,
            written,
        }
    }
}

// Runs a sheet, played one way or another, and draws the panel after its last event. Refused by 15, 4, 2, 4 or 14, with the panel left
// as it was.
pub fn run_by<P: Play>(p: Plant, sheet: &[u8], panel: &mut [u8]) -> Result<Ran, Refusal>
    ensures answer { run_of p result ≡ run p sheet.now panel.old }
    ensures bytes { panel.new ≡ run_panel p sheet.now panel.old }
{
    refuse_if(!plant::in_range(p), Refusal::OutOfRange)?;
    let reader = SheetReader::open(sheet)?;
    let n = usize::from(p.site.n);
    refuse_if(panel.len() != 16 * n, Refusal::BadOutputLength)?;
    let ran = P::play(p, reader);
    panel::fill(ran.plant, panel);
    Ok(ran)
}

// Runs a sheet event by event.
pub fn run(p: Plant, sheet: &[u8], panel: &mut [u8]) -> Result<Ran, Refusal>
    ensures answer { run_of p result ≡ run p sheet.now panel.old }
    ensures bytes { panel.new ≡ run_panel p sheet.now panel.old }
{
    run_by::<Plain>(p, sheet, panel)
}
