// The lines that are whole in a buffer, each run and answered.
ghost use Rattle.std.specs.Prelude.{◌+◌, ◌≤◌, ◌<◌, ◌^◌, length, ◌≡◌};
ghost use Rattle.events_shift.specs.Step.{out_room};
ghost use Rattle.events_shift.specs.Served.{Turned};

use crate::steps::step;
use events::FRAME_ROOM;
use plan_lines::{LF, end_of};

// The most octets of an answer's line.
pub const STEP_ROOM: usize = 4082;

// How far it is: the place behind the last line served, the number of the next line, and how much was written.
#[derive(Drop)]
pub struct Turn {
    pub from: usize,
    pub number: u64,
    pub at: usize,
}

// Serves the lines that are whole, as long as there is room for an answer.
// Stays a `while`: how many lines there is room for shows only as each of them is answered.
pub fn serve_lines(
    image: &mut [u8],
    buffer: &[u8],
    from: usize,
    number: u64,
    frame: &mut [u8; FRAME_ROOM],
    sent: &mut [u8],
    out: &mut [u8],
) -> Turn
    requires { (from ≤ length buffer.now) × ((number + length buffer.now < 2 ^ 64) × (length sent.old ≡ out_room)) }
    ensures { Turned image.old buffer.now from number out.old result
        image.new out.new }
{
    let mut turn = Turn {
        from,
        number,
        at: 0,
    };
    while STEP_ROOM <= out.len() - turn.at {
        let end = end_of(buffer, turn.from, LF);
        if end == buffer.len() {
            return turn;
        }
        turn.at = step(
            image,
            turn.number,
            &buffer[turn.from..end],
            frame,
            sent,
            out,
            turn.at,
        );
        turn.number += 1;
        turn.from = end + 1;
    }
    turn
}
