// The kinds of values; any other is read as code. Bytes of the book and of the lent tables, and so constants.
pub const PLAIN: u8 = 0;

pub const CELL: u8 = 1;

pub const CODE: u8 = 2;
