// A crossing in words of 64 bits (specs/Lanes.antt), for the sheet run: held without an array, so that the compiler keeps it in
// registers. What it holds is said by the crossing that it is.
#![tactic(auto)]

mod forms;

ghost use Rattle.std.specs.Prelude.{◌≡◌};
ghost use Rattle.lane.specs.Lanes.{crossing_of, Small, Fits};

use machine::Crossing;

// A crossing: four bytes in `calling` and `waiting`, four bits in `route`, `occupied` and `unsure`, four pairs of bits in
// `booms`, seven bits in `lamps`.
#[derive(Clone, Copy)]
pub struct Lane {
    pub calling: u64,
    pub waiting: u64,
    pub route: u64,
    pub occupied: u64,
    pub unsure: u64,
    pub booms: u64,
    pub lamps: u64,
    pub kiosk: u64,
    pub operator: u64,
    pub countdown: u64,
    pub phase: u64,
    pub timer: u64,
    pub left: u64,
    pub out: u64,
}

// A crossing as a lane. For other crates alone: what it holds is small.
pub fn pack(c: Crossing) -> Lane
    requires { Small c }
    ensures { crossing_of result ≡ c }
{
    let calling = c.calling;
    let waiting = c.waiting;
    let route = c.route;
    let occupied = c.occupied;
    let unsure = c.unsure;
    let booms = c.booms;
    let lamps = c.lamps;
    Lane {
        calling: digits::join(calling, 256),
        waiting: digits::join(waiting, 256),
        route: digits::join(route, 2),
        occupied: digits::join(occupied, 2),
        unsure: digits::join(unsure, 2),
        booms: digits::join(booms, 4),
        lamps: digits::join(lamps, 2),
        kiosk: u64::from(c.kiosk),
        operator: u64::from(c.operator),
        countdown: u64::from(c.countdown),
        phase: u64::from(c.phase),
        timer: u64::from(c.timer),
        left: u64::from(c.left),
        out: u64::from(c.out),
    }
}

// A lane as a crossing. For other crates alone: its numbers fit.
pub fn unpack(l: Lane) -> Crossing
    requires { Fits (crossing_of l) }
    ensures { result ≡ crossing_of l }
{
    Crossing {
        calling: digits::part(l.calling, 256),
        waiting: digits::part(l.waiting, 256),
        route: digits::part(l.route, 2),
        occupied: digits::part(l.occupied, 2),
        unsure: digits::part(l.unsure, 2),
        booms: digits::part(l.booms, 4),
        lamps: digits::part(l.lamps, 2),
        kiosk: l.kiosk as u8,
        operator: l.operator as u8,
        countdown: l.countdown as u16,
        phase: l.phase as u8,
        timer: l.timer as u16,
        left: l.left as u16,
        out: l.out as u16,
    }
}
