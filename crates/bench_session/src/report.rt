// What a call answers, taken out of its number, and the words for it.
use std::fmt::{self, InlineText};

// The octets that a call is lent for what it sends.
pub const OUT: usize = 2008;

// Where a reply's PDU stands, behind a tag, and its code.
const PDU: usize = 18;

const CODE: usize = 23;

#[derive(Clone, Copy)]
pub enum Answer {
    Refused { reason: u8 },
    Forwarded,
    Dropped,
    Looped { length: usize },
    Replied { length: usize },
    RepliedForwarded { length: usize },
    Noticed { port: u8, side: u8, length: usize },
    Done,
    Faulty { reason: u8 },
}

impl From<u64> for Answer {
    fn from(number: u64) -> Answer {
        let [outcome, reason, port, side, ..] = number.to_le_bytes();
        let length = (number >> 32) as usize;
        match outcome {
            0 => Answer::Refused { reason },
            1 => Answer::Forwarded,
            2 => Answer::Dropped,
            3 => Answer::Looped { length },
            4 if port == 0 => Answer::Replied { length },
            4 => Answer::Noticed { port, side, length },
            5 => Answer::RepliedForwarded { length },
            6 => Answer::Done,
            7..=255 => Answer::Faulty { reason },
        }
    }
}

// An answer, beside what its call was lent.
#[derive(Clone, Copy)]
pub struct Told<'a> {
    pub answer: Answer,
    pub out: &'a [u8; OUT],
}

impl<'a> Told<'a> {
    // What was written from a place on.
    fn written(&self, from: usize, length: usize) -> Hex<'a> {
        let out = self.out;
        Hex(out.get(from..length).unwrap_or(&[]))
    }
}

impl fmt::Display for Told<'_> {
    fn fmt<W: fmt::Write>(&self, f: &mut fmt::Formatter<W>) -> fmt::Result {
        let code = self.out[CODE];
        match self.answer {
            Answer::Refused { reason } => write!(f, "refusal {reason}"),
            Answer::Forwarded => f.write_str("forward"),
            Answer::Dropped => f.write_str("drop"),
            Answer::Looped { length } => {
                write!(f, "loop, {length} octets{}", self.written(0, length))
            }
            Answer::Replied { length } => {
                write!(
                    f,
                    "reply, {length} octets, code {code}{}",
                    self.written(PDU, length)
                )
            }
            Answer::RepliedForwarded { length } => {
                write!(
                    f,
                    "reply and forward, {length} octets, code {code}{}",
                    self.written(PDU, length)
                )
            }
            Answer::Noticed { port, side, length } => {
                write!(
                    f,
                    "reply, {length} octets, code {code}, port {port}, side {side}{}",
                    self.written(PDU, length)
                )
            }
            Answer::Done => f.write_str("done"),
            Answer::Faulty { reason } => write!(f, "fault, reason {reason}"),
        }
    }
}

// Octets in hex, behind a colon.
#[derive(Clone, Copy)]
struct Hex<'a>(&'a [u8]);

impl fmt::Display for Hex<'_> {
    fn fmt<W: fmt::Write>(&self, f: &mut fmt::Formatter<W>) -> fmt::Result {
        f.write_str(":")?;
        for x in self.0 {
            write!(f, " {}", HexOctet(*x))?;
        }
        Ok(())
    }
}

// An octet in hex. Its two digits are one part: of `{:02x}` a zero before the digit would be a part by itself.
#[derive(Clone, Copy)]
pub struct HexOctet(pub u8);

impl fmt::Display for HexOctet {
    fn fmt<W: fmt::Write>(&self, f: &mut fmt::Formatter<W>) -> fmt::Result {
        let digits = format_args!("{:02x}", self.0);
        f.write_str(InlineText::<2>::of(digits).as_str())
    }
}
