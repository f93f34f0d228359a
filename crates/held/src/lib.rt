// What one crossing holds is in its range (document 01, "What the plant holds").
#![tactic(auto)]

ghost use Rattle.std.specs.Prelude.{◌≡◌};
ghost use Rattle.machine.specs.Common.{all_below};
ghost use Rattle.machine.specs.Range.{report_limit, boom_in, crossing_in, lamp_in, left_limit, phase_in, track_in};

use machine::{Crossing, Entry, reports};

// The highest report of a boom (document 02, T-02); a boom that the crossing lacks stays at 0.
fn report_limit(present: bool) -> u8
    ensures { result ≡ report_limit present }
{
    if present { reports::LOST } else { 0 }
}

// What each track holds is in its range.
fn tracks_in(s: Entry, c: Crossing) -> bool
    ensures { result ≡ all_below 4 (track_in s c) }
{
    (0..4).all(|t| track::track_in(s, c, t))
}

// The last report of each boom is in its range.
fn booms_in(s: Entry, c: Crossing) -> bool
    ensures { result ≡ all_below 4 (boom_in s c) }
{
    let count = kind::boom_count(s.kind);
    (0..4).all(|b| c.booms[b] <= report_limit(b < usize::from(count)))
}

// The last report of each lamp is 0 or 1; that of a lamp which the crossing lacks stays at 0 (document 02, T-09).
fn lamps_in(s: Entry, c: Crossing) -> bool
    ensures { result ≡ all_below 7 (lamp_in s c) }
{
    let count = kind::lamp_count(s.kind);
    (0..7).all(|l| c.lamps[l] <= u8::from(l < usize::from(count)))
}

// The timer is in the range that its phase gives it.
#[tactic(auto, unfolding(machine::specs::Range::phase_in))]
fn phase_in(s: Entry, phase: u8, timer: u16) -> bool
    ensures { result ≡ phase_in s phase timer }
{
    match phase {
        1 => (1..=s.pre).contains(&timer),
        2 => kind::four_booms(s.kind) && (1..=s.gap).contains(&timer),
        0 | 3 => timer == 0,
        4 => timer == 0 && !kind::lights_only(s.kind),
        _ => false,
    }
}

// The most ticks left to motorists: M in phase 0, otherwise none (document 02, T-06).
fn left_limit(s: Entry, phase: u8) -> u16
    ensures { result ≡ left_limit s phase }
{
    if phase == 0 { s.pause } else { 0 }
}

// The numbers of a crossing are in their ranges.
pub fn crossing_in(s: Entry, c: Crossing) -> bool
    ensures { result ≡ crossing_in s c }
{
    tracks_in(s, c)
        & booms_in(s, c)
        & lamps_in(s, c)
        & ((c.kiosk <= 1) & (c.operator <= 1))
        & (c.countdown <= Crossing::RELEASE)
        & phase_in(s, c.phase, c.timer)
        & (c.left <= left_limit(s, c.phase))
        & (c.out <= Crossing::MOST)
}
