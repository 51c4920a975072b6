// One line of a plan's text, read.
#![tactic(auto)]

mod fields;
mod lines;

pub use fields::{amount_of, end_of};
pub use lines::line_of;

// What parts the fields of a line, and what ends a line.
pub const TAB: u8 = 9;

pub const LF: u8 = 10;

// One line of a plan's text. A number above 9,999 is read as 9,999, which is out of range wherever it stands.
#[derive(Clone, Copy)]
pub enum Said {
    OfPort(u32, u8, u64),
    OfFlow(u32, u32, u8, u32),
    OfMp(u32, u8, u32),
}
