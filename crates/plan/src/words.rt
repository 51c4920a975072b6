// Words and limits of the plan as numbers, as the definitions have them.

// Kinds of MP; 0 is none.
pub const UP: u8 = 1;

pub const DOWN: u8 = 2;

pub const MIP: u8 = 3;

// Ports, flows and levels: how many, and the highest number.
pub const PORTS: usize = 8;

pub const FLOWS: usize = 32;

pub const LEVELS: usize = 8;

pub const HIGHEST_PORT: u32 = 8;

pub const HIGHEST_FLOW: u32 = 32;

pub const HIGHEST_LEVEL: u32 = 7;

pub const HIGHEST_VID: u32 = 4094;

// The most MPs that a plan has, and the longest text.
pub const MOST_MPS: u32 = 32;

pub const LONGEST_TEXT: usize = 8192;
