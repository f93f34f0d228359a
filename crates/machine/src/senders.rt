// Senders (document 02, T-04), by the names of specs/Senders.antt.
pub const DETECTION: u8 = 0;

pub const KIOSK: u8 = 1;

pub const LOCAL_OPERATOR: u8 = 2;

pub const REMOTE_CENTRE: u8 = 3;
