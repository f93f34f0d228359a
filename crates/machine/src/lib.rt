// The types of the crossing engine (document 01, "What the plant holds") and the fresh plant.
// What each event does and what each panel byte shows is defined in specs/.
#![tactic(auto)]

pub mod aspects;
pub mod kinds;
pub mod numbers;
pub mod reports;
pub mod senders;

ghost use Rattle.std.specs.Prelude.{◌≡◌};
ghost use Rattle.machine.specs.Common.{bit};
ghost use Rattle.machine.specs.Plant.{fresh_crossing, fresh_plant, lamp_count};

// The settings of one crossing: kind 1 to 6, tracks 1 to 4, the mask of dependent tracks; in ticks F, G and M, the time for
// motorists between closures (document 02, T-06).
#[repr(C)]
#[derive(Clone, Copy, Default, PartialEq, Eq)]
pub struct Entry {
    pub kind: u8,
    pub tracks: u8,
    pub mask: u8,
    pub pre: u16,
    pub gap: u16,
    pub pause: u16,
}

// The settings of a plant: n crossings, the entries past n all zero.
#[repr(C)]
#[derive(Clone, Copy, Default, PartialEq, Eq)]
pub struct Site {
    pub n: u8,
    pub entries: [Entry; 8],
}

// One crossing: five arrays by track, the last reports of its booms and lamps, and its numbers.
// A flag (route, occupied, unsure, lamps, holds) is a byte, 0 or 1: every other value is out of its range. A track is unsure
// from a strike-in that found it full to the next completed time release (document 02, T-01).
// Booms: up, moving, down or position lost (document 02, T-02), the numbers of mod reports.
// Lamps: road white, road red, train signal red, train signal white, flasher; those of booms 0 and 1, kind 6 alone (document 02,
// T-09).
// Phases: 0 open, 1 warning, 2 right booms ordered down, 3 all ordered down, 4 raising.
// Left: the ticks left to motorists before a warning may begin (document 02, T-06). Out: the ticks out of normal.
#[repr(C)]
#[derive(Clone, Copy, Default, PartialEq, Eq)]
pub struct Crossing {
    pub calling: [u8; 4],
    pub waiting: [u8; 4],
    pub route: [u8; 4],
    pub occupied: [u8; 4],
    pub unsure: [u8; 4],
    pub booms: [u8; 4],
    pub lamps: [u8; 7],
    pub kiosk: u8,
    pub operator: u8,
    pub countdown: u16,
    pub phase: u8,
    pub timer: u16,
    pub left: u16,
    pub out: u16,
}

// The plant goes in and comes back by value.
#[repr(C)]
#[derive(Clone, Copy)]
pub struct Plant {
    pub site: Site,
    pub beat: u8,
    pub crossings: [Crossing; 8],
}

// An event: any four bytes.
#[repr(C)]
#[derive(Clone, Copy)]
pub struct Event {
    pub code: u8,
    pub crossing: u8,
    pub place: u8,
    pub value: u8,
}

// How a signal flashes (document 02, T-05): 45 flashes a minute, 90 flashes a minute, or not at all.
#[derive(Clone, Copy)]
pub enum Rhythm {
    Slow,
    Fast,
    Steady,
}

// What an event call returns: number 0 if taken, the trains written off, the plant after it.
#[repr(C)]
#[derive(Clone, Copy)]
pub struct Answer {
    pub number: u8,
    pub written: u32,
    pub plant: Plant,
}

// What a preview returns (document 02, T-03): what the event would answer; no plant comes back.
#[repr(C)]
#[derive(Clone, Copy)]
pub struct Preview {
    pub number: u8,
    pub written: u32,
}

// What reading a site book returns.
#[repr(C)]
#[derive(Clone, Copy)]
pub struct Reading {
    pub number: u8,
    pub plant: Plant,
}

// What a sheet run returns.
#[repr(C)]
#[derive(Clone, Copy)]
pub struct Run {
    pub number: u8,
    pub plant: Plant,
    pub taken: u16,
    pub refused: u16,
    pub written: u32,
}

// What the hut's sheet against the cabin's returns (document 02, T-07).
#[repr(C)]
#[derive(Clone, Copy)]
pub struct Agreement {
    pub number: u8,
    pub agreed: bool,
    pub stretch: u16,
}

// What a board distance returns (document 02, T-08), in metres.
#[repr(C)]
#[derive(Clone, Copy)]
pub struct BoardDistance {
    pub number: u8,
    pub distance: u16,
}

// A cell of the printed table of board distances (document 02, T-08) with what it is for: km/h, mm/s2, per mille, metres.
#[derive(Clone, Copy)]
pub struct BoardCell {
    pub speed: u16,
    pub retardation: u16,
    pub gradient: i16,
    pub distance: u16,
}

impl Crossing {
    // The release countdown begins here, in ticks.
    pub const RELEASE: u16 = 270;

    // More ticks out of normal than this raise the panel's bit.
    pub const OVERDUE: u16 = 900;

    // Under the 1959 sheet a tick that finds so many may release (document 02, T-09).
    pub const OVERLONG: u16 = 1079;

    // Ticks out of normal run to here (document 02, T-09).
    pub const MOST: u16 = 1080;

    // A track holds at most this many trains.
    pub const FULL: u8 = 255;

    // A crossing at rest, its lamps whole, those of its booms under the 1959 sheet alone (document 02, T-09); a record past the last
    // crossing is not used and all zero.
    pub fn fresh(used: bool, kind: u8) -> Self
        ensures { result ≡ fresh_crossing (bit used (lamp_count kind)) }
    {
        let whole = u8::from(used);
        let boom = u8::from(used & kinds::old_booms(kind));
        Crossing {
            calling: [0; 4],
            waiting: [0; 4],
            route: [0; 4],
            occupied: [0; 4],
            unsure: [0; 4],
            booms: [reports::UP; 4],
            lamps: [whole, whole, whole, whole, whole, boom, boom],
            kiosk: 0,
            operator: 0,
            countdown: 0,
            phase: 0,
            timer: 0,
            left: 0,
            out: 0,
        }
    }
}

impl Plant {
    // The fresh plant of a site.
    pub fn fresh(site: Site) -> Self
        ensures { result ≡ fresh_plant site }
    {
        let n = site.n;
        let s = site.entries;
        let crossings = [
            Crossing::fresh(0 < n, s[0].kind),
            Crossing::fresh(1 < n, s[1].kind),
            Crossing::fresh(2 < n, s[2].kind),
            Crossing::fresh(3 < n, s[3].kind),
            Crossing::fresh(4 < n, s[4].kind),
            Crossing::fresh(5 < n, s[5].kind),
            Crossing::fresh(6 < n, s[6].kind),
            Crossing::fresh(7 < n, s[7].kind),
        ];
        Plant {
            site,
            beat: 0,
            crossings,
        }
    }
}
