// What a train signal shows beyond document 01 (document 02, T-09), by the name of specs/Panel.antt.
pub const AMBER: u8 = 3;
