// The answers to events: bytes of the lent buffer, in C too, and so constants.
pub const DONE: u8 = 0;

pub const BLOCKED: u8 = 1;

pub const NO_STEP_LEFT: u8 = 2;

pub const NO_SUCH: u8 = 3;
