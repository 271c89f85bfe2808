// The largest values of fields.
pub const C: u8 = 14;

pub const LABEL: u8 = 15;

pub const REGISTER: u8 = 7;

pub const VALUE_KIND: u8 = 2;

pub const ANY: u8 = 255;
