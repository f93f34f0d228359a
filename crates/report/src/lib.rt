// What the program prints, worked out from the bytes of its two files (document 01, "Event sheet and program").
#![tactic(auto)]

ghost use Rattle.std.specs.Prelude.{◌≡◌};
ghost use Rattle.report.specs.Report.{outcome_of, report, report_panel};

use refusal::Refusal;

// The crossings of the site and the counts of the run.
#[derive(Clone, Copy, Debug, PartialEq, Eq)]
pub struct Outcome {
    pub n: u8,
    pub taken: u16,
    pub refused: u16,
    pub written: u32,
}

// Reads the site, runs the sheet from its fresh plant and draws the panel at the start of the lent bytes. Refused by the site's number,
// otherwise the sheet's, otherwise 14 where the panel has no room: the lent bytes then stay as they were.
pub fn report(site: &[u8], sheet: &[u8], panel: &mut [u8]) -> Result<Outcome, Refusal>
    ensures answer { outcome_of result ≡ report site.now sheet.now panel.old }
    ensures bytes { panel.new ≡ report_panel site.now sheet.now panel.old }
{
    let plant = book_read::read(site)?;
    let n = plant.site.n;
    let room = panel.len().min(16 * usize::from(n));
    let ran = sheet::run(plant, sheet, &mut panel[..room])?;
    Ok(Outcome {
        n,
        taken: ran.taken,
        refused: ran.refused,
        written: ran.written,
    })
}
