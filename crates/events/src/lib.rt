// A unit's log on a desk: a line of it read into an event, and the line that is printed for what a call answered.
#![tactic(auto)]

mod answers;
mod digits;
mod fields;
mod lines;
mod numbers;

pub use answers::{put_answer, put_fault, put_refusal};
pub use lines::read_event;

// The most octets of a line, its LF not counted; and of a frame's octets that a line can hold, with room to spare.
pub const LINE_ROOM: usize = 4100;

pub const FRAME_ROOM: usize = 2050;

// A line of a log that can be read. A frame's octets stand in the reader's buffer, as memory is fixed, and here is how many.
#[derive(Clone, Copy)]
pub enum Logged {
    Frame(u32, u32, usize),
    Tick(u32),
    Allow(u32),
    Prohibit(u32),
    Notice,
    Restart(u32),
}
