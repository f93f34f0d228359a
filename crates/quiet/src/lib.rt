// Quiet ticks: at most crossings a tick only counts. What k of them make of a crossing, and how many of them lie ahead.
#![tactic(auto)]

ghost use Rattle.std.specs.Prelude.{◌≡◌, ◌≤◌};
ghost use Rattle.lane.specs.Lanes.{crossing_of};
ghost use Rattle.quiet.specs.Passing.{out_after, passed, long, ticks_left, sheet_left, opens, span};

use form::Form;
use lane::Lane;
use machine::Entry;

// Ticks out of normal k quiet ticks later.
fn out_after(normal: bool, k: u64, out: u64) -> u64
    ensures { result ≡ out_after normal k out }
{
    if normal {
        return out;
    }
    if k < 1080u64.saturating_sub(out) {
        return out + k;
    }
    1080
}

// A lane k quiet ticks later.
pub fn advance(s: Entry, k: u64, l: Lane) -> Lane
    ensures { crossing_of result ≡ passed s k (crossing_of l) }
{
    let normal = position::is_normal(s, l);
    Lane {
        countdown: l.countdown.saturating_sub(k),
        timer: l.timer.saturating_sub(k),
        left: l.left.saturating_sub(k),
        out: out_after(normal, k, l.out),
        ..l
    }
}

// The quiet ticks of a count.
fn ticks_left(count: u64) -> u64
    ensures { result ≡ ticks_left count }
{
    if count == 0 {
        return 8192;
    }
    count - 1
}

// The quiet ticks until the 1959 sheet may release (document 02, T-09).
fn sheet_left(s: Entry, l: Lane) -> u64
    ensures value { result ≡ sheet_left s (crossing_of l) }
    ensures upper_bound { result ≤ long }
{
    if kind::old_sheet(s.kind) & !position::is_normal(s, l) {
        return 1079u64.saturating_sub(l.out);
    }
    8192
}

// Phase 4 with every boom up.
fn opens(s: Entry, l: Lane) -> bool
    ensures { result ≡ opens s (crossing_of l) }
{
    (l.phase == 4) & l.booms_up(s.kind)
}

// The quiet ticks that lie ahead of a settled lane.
pub fn span(s: Entry, l: Lane) -> u64
    ensures value { result ≡ span s (crossing_of l) }
    ensures upper_bound { result ≤ long }
{
    if opens(s, l) {
        return 0;
    }
    ticks_left(l.countdown)
        .min(ticks_left(l.timer))
        .min(ticks_left(l.left))
        .min(sheet_left(s, l))
}
