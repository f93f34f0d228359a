// Lit or dark in a beat, read from one table: a row for each rhythm and beat (document 02, T-05).
#![tactic(auto)]

ghost use Rattle.std.specs.Prelude.{cond, ◌&&◌, ◌≡◌, ltb};
ghost use Rattle.machine.specs.declared.Rhythm.TheVariants.{Steady};
ghost use Rattle.machine.specs.Panel.{by_position, lit_at};
ghost use Rattle.rhythm.specs.Rows.{beat_read, place, row_of};

use machine::Rhythm;

const LIT: bool = true;

const DARK: bool = false;

// A rhythm, a beat, and whether a signal of that rhythm is lit in that beat. No names: with them a row of the table would take five
// lines.
#[derive(Clone, Copy)]
pub struct Row(pub Rhythm, pub u8, pub bool);

// The rows, each with its sections of source 002, or of source 003 (document 02, T-09). A beat is a third of a second.
const ROWS: [Row; 12] = [
    // 45 flashes a minute, light to dark 1:3
    Row(Rhythm::Slow, 0, LIT), // 5.1.1 white, 5.3.1 red in normal position
    Row(Rhythm::Slow, 1, DARK), // 5.1.1 white, 5.3.1 red in normal position
    Row(Rhythm::Slow, 2, DARK), // 5.1.1 white, 5.3.1 red in normal position
    Row(Rhythm::Slow, 3, DARK), // 5.1.1 white, 5.3.1 red in normal position
    // 90 flashes a minute, light to dark 1:1
    Row(Rhythm::Fast, 0, LIT), // 5.1.1 red, 5.3.1 red out of normal position and white
    Row(Rhythm::Fast, 1, DARK), // 5.1.1 red, 5.3.1 red out of normal position and white
    Row(Rhythm::Fast, 2, LIT), // 5.1.1 red, 5.3.1 red out of normal position and white
    Row(Rhythm::Fast, 3, DARK), // 5.1.1 red, 5.3.1 red out of normal position and white
    // no flashing light can be shown, or the light is steady by itself
    Row(Rhythm::Steady, 0, LIT), // 5.1.1, 5.3.1 steady light; source 003, 2 boom lamps, 5 amber
    Row(Rhythm::Steady, 1, LIT), // 5.1.1, 5.3.1 steady light; source 003, 2 boom lamps, 5 amber
    Row(Rhythm::Steady, 2, LIT), // 5.1.1, 5.3.1 steady light; source 003, 2 boom lamps, 5 amber
    Row(Rhythm::Steady, 3, LIT), // 5.1.1, 5.3.1 steady light; source 003, 2 boom lamps, 5 amber
];

// A beat above 3, which no plant in range has, reads the row of beat 3.
fn beat_read(beat: u8) -> usize
    ensures { result ≡ beat_read beat }
{
    usize::from(beat.min(3))
}

// The place of a row: four rows for each rhythm.
fn place(rhythm: Rhythm, beat: u8) -> usize
    ensures { result ≡ place rhythm beat }
{
    let at = beat_read(beat);
    match rhythm {
        Rhythm::Slow => at,
        Rhythm::Fast => 4 + at,
        Rhythm::Steady => 8 + at,
    }
}

// The row of a rhythm and a beat.
pub fn row_of(rhythm: Rhythm, beat: u8) -> Row
    ensures { result ≡ row_of rhythm beat }
{
    ROWS[place(rhythm, beat)]
}

// The rhythm of a crossing's signals: it is one for all of them that are not steady by themselves (law `one_rhythm`). `still` is
// normal position.
pub fn of(flasher: bool, still: bool) -> Rhythm
    ensures { result ≡ by_position flasher still }
{
    match (flasher, still) {
        (true, true) => Rhythm::Slow,
        (true, false) => Rhythm::Fast,
        (false, _) => Rhythm::Steady,
    }
}

// Lit in this beat: each signal of the crossing that is neither dark nor steady by itself.
pub fn lit_now(beat: u8, flasher: bool, still: bool) -> bool
    ensures { result ≡ lit_at (by_position flasher still) beat }
{
    let Row(_, _, lit) = row_of(of(flasher, still), beat);
    lit
}

// Lit in this beat: a signal that is steady by itself (document 02, T-09).
pub fn lit_steady(beat: u8) -> bool
    ensures { result ≡ lit_at Steady beat }
{
    let Row(_, _, lit) = row_of(Rhythm::Steady, beat);
    lit
}

// A signal by what it shows: dark is not lit; all else by its row, the steady one where it is steady by itself (fixed), otherwise that
// of the crossing's rhythm.
pub fn lit(shown: u8, fixed: bool, steady: bool, on: bool) -> bool
    ensures { result ≡ (ltb 0 shown && cond fixed steady on) }
{
    (0 < shown) & (if fixed { steady } else { on })
}
