// One line of a log, run on the image and answered by a line.
ghost use Rattle.std.specs.Prelude.{◌≡◌, ◌+◌, ◌*◌, ◌≤◌, [], length};
ghost use Rattle.events.specs.declared.Logged.TheVariants.{Frame};
ghost use Rattle.events.specs.AnswerLine.{answer_line};
ghost use Rattle.events.specs.Read.{Put};
ghost use Rattle.events_shift.specs.Step.{entered, word_of, got_of, out_room, step_room};
ghost use Rattle.events_shift.specs.Held.{event_in, lent_to, Made, Taken};

use events::{FRAME_ROOM, Logged, put_answer, put_refusal, read_event};
use tmavolice::{
    tmavolice_allow, tmavolice_frame, tmavolice_notice, tmavolice_prohibit, tmavolice_restart,
    tmavolice_tick,
};

// What a call is lent for the octets that it sends.
pub const OUT_ROOM: usize = 2008;

// What a line that can't be read is answered: refused, with 9. (Stays a number, as what a C entry answers: outcome, refusal and length in one.)
const CANNOT_BE_READ: u64 = 9 * 256;

// What stands above the low 32 bits of an answer is the length written, or the line of a faulty plan.
pub const LENGTHS: u64 = 4294967296;

// The line of a call, by the number that it answered and what it was lent.
fn put_call(out: &mut [u8], at: usize, number: u64, word: &[u8], answer: u64, lent: &[u8]) -> usize
    requires { at + 58 + length word.now + 2 * length lent.now ≤ length out.old }
    ensures { Put (answer_line number word.now (got_of answer lent.now)) at result
        out.old out.new }
{
    let outcome = (answer % 256) as u8;
    if outcome == 0 {
        return put_refusal(out, at, number, word, (answer / 256 % 256) as u8);
    }
    let n = ((answer / LENGTHS) as usize).min(lent.len());
    put_answer(out, at, number, word, outcome, &lent[0..n])
}

fn word_of(event: Logged) -> &'static [u8]
    ensures { (result.now ≡ word_of (event_in event [])) × (length result.now ≤ 8) }
{
    match event {
        Logged::Frame(_, _, _) => b"frame",
        Logged::Tick(_) => b"tick",
        Logged::Allow(_) => b"allow",
        Logged::Prohibit(_) => b"prohibit",
        Logged::Notice => b"notice",
        Logged::Restart(_) => b"restart",
    }
}

// What the call of an event was lent.
fn lent_of(event: Logged, sent: &[u8]) -> &[u8]
    ensures { (result.now ≡ lent_to event sent.now) × (length result.now ≤ length sent.now) }
{
    match event {
        Logged::Frame(_, _, _) => sent,
        Logged::Notice => sent,
        Logged::Tick(_) => b"",
        Logged::Allow(_) => b"",
        Logged::Prohibit(_) => b"",
        Logged::Restart(_) => b"",
    }
}

// The line of an event.
fn put_event(
    out: &mut [u8],
    at: usize,
    number: u64,
    event: Logged,
    answer: u64,
    sent: &[u8],
) -> usize
    requires { at + 66 + 2 * length sent.now ≤ length out.old }
    ensures { Put (answer_line number (word_of (event_in event [])) (got_of answer (lent_to event sent.now))) at result
        out.old out.new }
{
    let lent = lent_of(event, sent);
    put_call(out, at, number, word_of(event), answer, lent)
}

// A frame's octets, from the front of their buffer.
fn hand_in(
    image: &mut [u8],
    port: u32,
    side: u32,
    frame: &[u8; FRAME_ROOM],
    n: usize,
    sent: &mut [u8],
) -> u64
    ensures { Made (entered image.old sent.old (event_in (Frame port side n) frame.now))
        (Frame port side n) result image.new sent.old sent.new }
{
    let room = &frame[..];
    let end = n.min(room.len());
    tmavolice_frame(image, port, side, &room[0..end], sent)
}

// The call of an event.
fn make_call(image: &mut [u8], event: Logged, frame: &[u8; FRAME_ROOM], sent: &mut [u8]) -> u64
    ensures { Made (entered image.old sent.old (event_in event frame.now))
        event result image.new sent.old sent.new }
{
    match event {
        Logged::Frame(port, side, n) => hand_in(image, port, side, frame, n, sent),
        Logged::Tick(reading) => tmavolice_tick(image, reading),
        Logged::Allow(flow) => tmavolice_allow(image, flow),
        Logged::Prohibit(flow) => tmavolice_prohibit(image, flow),
        Logged::Notice => tmavolice_notice(image, sent),
        Logged::Restart(reading) => tmavolice_restart(image, reading),
    }
}

// One step: a line without its LF, under its number, on the image. The line that answers it is written from `at` on, and what is
// behind it is answered. A frame's octets and what a call sends go through the caller's two buffers.
pub fn step(
    image: &mut [u8],
    number: u64,
    line: &[u8],
    frame: &mut [u8; FRAME_ROOM],
    sent: &mut [u8],
    out: &mut [u8],
    at: usize,
) -> usize
    requires { (length sent.old ≡ out_room) × (at + step_room ≤ length out.old) }
    ensures { Taken image.old number line.now frame.old sent.old
        out.old at result image.new frame.new sent.new out.new }
{
    match read_event(line, frame) {
        None => put_call(out, at, number, b"bad", CANNOT_BE_READ, b""),
        Some(event) => {
            let answer = make_call(image, event, frame, sent);
            put_event(out, at, number, event, answer, sent)
        }
    }
}
