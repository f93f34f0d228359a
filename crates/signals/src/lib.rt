// What a crossing shows and what of it is lit (document 01, "Panel"; document 02, T-05, T-09). Functions for other functions and
// crates alone: `still` is normal position, `closed` is secured, worked out once for a row.
#![tactic(auto)]

ghost use Rattle.std.specs.Prelude.{◌≡◌};
ghost use Rattle.machine.specs.Plant.{normal, secured};
ghost use Rattle.machine.specs.Panel.{lit, road, signal};
ghost use Rattle.signals.specs.Shown.{shown_of};

use machine::{Crossing, Entry, aspects};

// Road, boom lamps, train signal, distant: bytes 0, 3, 6 and 7 of a row.
#[derive(Clone, Copy)]
pub struct Shown {
    pub road: u8,
    pub booms: u8,
    pub signal: u8,
    pub distant: u8,
}

// The train signal; under the 1959 sheet white or, with booms, amber (document 02, T-09). `byte` is the road's.
fn signal(s: Entry, c: Crossing, byte: u8, closed: bool) -> u8
    requires { (byte ≡ road s c) × (closed ≡ secured s c) }
    ensures { result ≡ signal s c }
{
    if kind::old_sheet(s.kind) {
        let lights = kind::lights_only(s.kind);
        let closing = matches!(c.phase, 1 | 3) & (byte == 2);
        let free = if lights { closing } else { closed };
        let white = (c.lamps[3] == 1) & free;
        return aspect::control(white, (c.lamps[2] == 1) & !lights);
    }
    aspect::signal(closed, c.lamps[3] == 1, c.lamps[2] == 1)
}

// What a crossing shows. Under the 1959 sheet (document 02, T-09) the road is dark in normal position, and boom lamps look at the
// booms alone.
pub fn all(s: Entry, c: Crossing, still: bool, closed: bool) -> Shown
    requires { (still ≡ normal s c) × (closed ≡ secured s c) }
    ensures { result ≡ shown_of s c }
{
    let old = kind::old_sheet(s.kind);
    let booms = c.booms;
    let off = if old { booms::up(s.kind, booms) } else { still };
    let lamps = u8::from(!off & !kind::lights_only(s.kind));
    let road = aspect::road(still, (c.lamps[0] == 1) & !old, c.lamps[1] == 1);
    let signal = signal(s, c, road, closed);
    let distant = aspect::distant(old, signal);
    Shown {
        road,
        booms: lamps,
        signal,
        distant,
    }
}

// What of it is lit in this beat: bits 1 road, 2 boom lamps, 4 train signal, 8 distant. Steady by themselves (document 02, T-09) are
// boom lamps of the 1959 sheet and amber.
pub fn lit(beat: u8, s: Entry, c: Crossing, still: bool, shown: Shown) -> u8
    requires { (still ≡ normal s c) × (shown ≡ shown_of s c) }
    ensures { result ≡ lit beat s c }
{
    let on = rhythm::lit_now(beat, c.lamps[4] == 1, still);
    let steady = rhythm::lit_steady(beat);
    bits::flags(
        rhythm::lit(shown.road, false, steady, on),
        rhythm::lit(shown.booms, kind::old_sheet(s.kind), steady, on),
        rhythm::lit(shown.signal, shown.signal == aspects::AMBER, steady, on),
        rhythm::lit(shown.distant, shown.distant == aspects::AMBER, steady, on),
    )
}
