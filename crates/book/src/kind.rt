// The kinds of record: bytes of the book, and constants, since tests compare them as they come (`k < WRITE`).
pub const C: u8 = 1;

pub const PLAIN_SHAPE: u8 = 16;

pub const CODE_SHAPE: u8 = 17;

pub const CELL_SHAPE: u8 = 18;

pub const CELL: u8 = 32;

pub const BLOCK: u8 = 48;

pub const PUT: u8 = 64;

pub const NAME: u8 = 65;

pub const CODE: u8 = 66;

pub const ADD: u8 = 67;

pub const NEW: u8 = 68;

pub const READ: u8 = 69;

pub const WRITE: u8 = 70;

pub const RELABEL: u8 = 71;

pub const LOWER: u8 = 72;

pub const START: u8 = 73;

pub const EXEC: u8 = 74;

pub const CHOOSE: u8 = 75;
