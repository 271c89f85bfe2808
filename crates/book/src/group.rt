// The groups of kinds, in the order in which they stand; a block's steps are one more, and what is no kind is of none. Numbers and no enum: `in_order`,
// `block_group` and `count` of `faults` take any number, and by an enum they would ask more of callers.
pub const NONE: u8 = 0;

pub const C: u8 = 1;

pub const SHAPES: u8 = 2;

pub const CELLS: u8 = 3;

pub const BLOCKS: u8 = 4;

pub const STEPS: u8 = 5;
