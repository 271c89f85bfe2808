// The kinds of events: bytes of the list, and so constants.
pub const STEP: u8 = 80;

pub const WRITE: u8 = 81;

pub const RELABEL: u8 = 82;

pub const NEW: u8 = 83;

pub const EXEC: u8 = 84;

pub const START: u8 = 85;
