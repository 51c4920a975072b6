// The timer TLV: its type, the length of its value, and its subtype.
pub const TIMER: u8 = 37;

pub const TIMER_LENGTH: usize = 5;

pub const TIMER_SUBTYPE: u8 = 1;
