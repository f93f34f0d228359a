// Boom reports (document 01, "Events"), by the names of specs/Reports.antt.
pub const UP: u8 = 0;

pub const MOVING: u8 = 1;

pub const DOWN: u8 = 2;

// Position lost: neither up nor moving nor down (document 02, T-02).
pub const LOST: u8 = 3;
