// One crossing's row of the panel: sixteen bytes (document 01, "Panel").
#![tactic(auto)]

ghost use Rattle.std.specs.Prelude.{◌≡◌};
ghost use Rattle.machine.specs.Panel.{row};

use machine::{Crossing, Entry};

// The sixteen bytes of one crossing.
pub fn row(beat: u8, s: Entry, c: Crossing) -> [u8; 16]
    ensures { result ≡ row beat s c }
{
    let has_booms = !kind::lights_only(s.kind);
    let normal = position::is_normal(s, c);
    let secured = position::is_secured(s, c);
    let shown = signals::all(s, c, normal, secured);
    let lit = signals::lit(beat, s, c, normal, shown);
    let booms = c.booms;
    let route = c.route;
    let [calling_low, calling_high] = panel_bytes::sum(c.calling).to_le_bytes();
    let [waiting_low, waiting_high] = panel_bytes::sum(c.waiting).to_le_bytes();
    [
        shown.road,
        lit,
        u8::from(!normal & !(has_booms & booms::down(s.kind, booms))),
        shown.booms,
        u8::from(has_booms & ((c.phase == 2) | (c.phase == 3))),
        u8::from(kind::four_booms(s.kind) & (c.phase == 3)),
        shown.signal,
        shown.distant,
        panel_bytes::released(s, route, secured),
        bits::flags(normal, secured, Crossing::OVERDUE < c.out, false),
        c.phase,
        bits::flags(c.kiosk == 1, c.operator == 1, false, false),
        calling_low,
        calling_high,
        waiting_low,
        waiting_high,
    ]
}
