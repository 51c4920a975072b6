// What is played: the frames are the tester's, 02-00-00-00-00-AA, and on VID 20, where a step does not say otherwise.
use crate::frames::Frame;
use crate::report::HexOctet;
use std::fmt::{self, InlineText};

// The tester is 02-00-00-00-00-AA.
pub const TESTER: u8 = 0xAA;

// The most that is said of a frame as it stands, whatever its length.
const MOST_WORDS: usize = 40;

#[derive(Clone, Copy)]
pub enum Step {
    Ask(Frame),
    // The request of B1 from 02-00-00-00-00-..
    AskFrom(u8),
    // The request of B1 with an output of 2,007 octets.
    AskShort,
    // Data on VID 30.
    Vid30,
    // A frame as it stands.
    Octets(&'static [u8]),
    // The other calls, with their clock or flow.
    Tick(u32),
    Allow(u32),
    Prohibit(u32),
    Notice,
    Restart(u32),
}

// What its line says before the answer, with the colon.
impl fmt::Display for Step {
    fn fmt<W: fmt::Write>(&self, f: &mut fmt::Formatter<W>) -> fmt::Result {
        match *self {
            Step::Ask(frame) => tell_frame(f, frame, TESTER, 20),
            Step::AskFrom(source) => tell_frame(f, Frame::Activate, source, 20),
            Step::AskShort => f.write_str("  Activate, 60 s, output of 2,007 octets: "),
            Step::Vid30 => tell_frame(f, Frame::Data, TESTER, 30),
            Step::Octets(octets) => {
                let words = format_args!("  frame of {} octets: ", octets.len());
                f.write_str(InlineText::<MOST_WORDS>::of(words).as_str())
            }
            Step::Tick(clock) => write!(f, "  tick {clock}: "),
            Step::Allow(flow) => write!(f, "  allow {flow}: "),
            Step::Prohibit(flow) => write!(f, "  prohibit {flow}: "),
            Step::Notice => f.write_str("  notice: "),
            Step::Restart(clock) => write!(f, "  restart {clock}: "),
        }
    }
}

// The frame, the last octet of its source, and its VID.
fn tell_frame<W: fmt::Write>(
    f: &mut fmt::Formatter<W>,
    frame: Frame,
    source: u8,
    vid: u8,
) -> fmt::Result {
    write!(f, "  {frame}, from {} on VID {vid}: ", HexOctet(source))
}
