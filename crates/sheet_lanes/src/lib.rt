// The sheet run over lanes and slots (T-14): what `sheet::run` promises. No call rests on it yet.
#![tactic(auto)]

ghost use Rattle.std.specs.Prelude.{◌≡◌};
ghost use Rattle.machine.specs.Sheet.{run, run_panel};
ghost use Rattle.sheet.specs.Runs.{run_of};

use machine::Plant;
use reader::SheetReader;
use refusal::Refusal;
use sheet::{Play, Ran};

// Two devices make a sheet fast (T-14): a crossing is held in words (crates/lane), and a tick that only counts is done when its crossing
// is next looked at (crates/quiet, slot, slots).
pub struct Lanes;

impl Play for Lanes {
    fn play(p: Plant, sheet: SheetReader) -> Ran {
        let site = p.site;
        let crossings = p.crossings;
        let mut slots = slots::begin(crossings);
        let mut least: u64 = 0;
        let mut now: u64 = 0;
        let mut beat = p.beat;
        let mut taken: u16 = 0;
        let mut refused: u16 = 0;
        let mut written: u64 = 0;
        for k in 0..sheet.size {
            let e = sheet.event_at(k);
            if e.code == 0 {
                let Ok(_) = verdict::judge_tick(e) else {
                    refused += 1;
                    continue;
                };
                taken += 1;
                beat = (beat + 1) % 4;
                if now < least {
                    now += 1;
                    continue;
                }
                let w = slots::sweep(site, now, slots);
                slots = w.slots;
                least = w.least;
                written += w.written;
                now += 1;
                continue;
            }
            let j = usize::from(e.crossing % 8);
            let s = site.entries[j];
            let z = slots[j];
            let l = z.lane;
            let Ok(t) = verdict::judge(site.n, s, l, e) else {
                refused += 1;
                continue;
            };
            taken += 1;
            written += u64::from(effect::written_off(l, t));
            let d = slot::apply(s, now, z, t);
            slots[j] = d;
            least = least.min(d.due);
        }
        let last = slots::finish(site, now, slots, crossings);
        Ran {
            plant: Plant {
                site,
                beat,
                crossings: last,
            },
            taken,
            refused,
            written: written as u32,
        }
    }
}

// Runs a sheet over lanes and slots.
pub fn run(p: Plant, sheet: &[u8], panel: &mut [u8]) -> Result<Ran, Refusal>
    ensures answer { run_of p result ≡ run p sheet.now panel.old }
    ensures bytes { panel.new ≡ run_panel p sheet.now panel.old }
{
    sheet::run_by::<Lanes>(p, sheet, panel)
}
