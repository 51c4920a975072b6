// The frames that are handed in.
ghost use Rattle.std.specs.Prelude.{◌≤◌, length};

use std::fmt;

#[derive(Clone, Copy)]
pub enum Frame {
    Activate,
    Later,
    Cut,
    Zero,
    Day,
    Longer,
    State,
    Level5,
    Tagged,
    Data,
}

impl fmt::Display for Frame {
    fn fmt<W: fmt::Write>(&self, f: &mut fmt::Formatter<W>) -> fmt::Result {
        f.write_str(match self {
            Frame::Activate => "Activate, 60 s",
            Frame::Later => "Activate of version 1, 60 s",
            Frame::Cut => "Activate without End",
            Frame::Zero => "Activate, 0 s",
            Frame::Day => "Activate, 86,400 s",
            Frame::Longer => "Activate, 86,401 s",
            Frame::State => "State",
            Frame::Level5 => "Activate at level 5, 60 s",
            Frame::Tagged => "Activate under a second tag",
            Frame::Data => "data",
        })
    }
}

// The most octets behind the tag.
pub const MOST_BEHIND: usize = 29;

impl Frame {
    // What stands behind the tag.
    pub fn behind(self) -> &'static [u8]
        ensures { length result.now ≤ MOST_BEHIND }
    {
        match self {
            Frame::Activate =>
                b"\x89\x02\x80\x39\x00\x08\x01\x00\x02\x00\x00\x00\x00\x01\x25\x00\x05\x01\x00\x00\x00\x3C\x00",
            Frame::Later =>
                b"\x89\x02\x81\x39\x00\x0A\x01\x00\x02\x00\x00\x00\x00\x01\x00\x00\x09\x00\x01\xFF\x25\x00\x05\x01\x00\x00\x00\x3C\x00",
            Frame::Cut =>
                b"\x89\x02\x80\x39\x00\x08\x01\x00\x02\x00\x00\x00\x00\x01\x25\x00\x05\x01\x00\x00\x00\x3C",
            Frame::Zero =>
                b"\x89\x02\x80\x39\x00\x08\x01\x00\x02\x00\x00\x00\x00\x01\x25\x00\x05\x01\x00\x00\x00\x00\x00",
            Frame::Day =>
                b"\x89\x02\x80\x39\x00\x08\x01\x00\x02\x00\x00\x00\x00\x01\x25\x00\x05\x01\x00\x01\x51\x80\x00",
            Frame::Longer =>
                b"\x89\x02\x80\x39\x00\x08\x01\x00\x02\x00\x00\x00\x00\x01\x25\x00\x05\x01\x00\x01\x51\x81\x00",
            Frame::State => b"\x89\x02\x80\x39\x00\x08\x03\x00\x02\x00\x00\x00\x00\x01\x00",
            Frame::Level5 =>
                b"\x89\x02\xA0\x39\x00\x08\x01\x00\x02\x00\x00\x00\x00\x01\x25\x00\x05\x01\x00\x00\x00\x3C\x00",
            Frame::Tagged =>
                b"\x81\x00\x00\x05\x89\x02\x80\x39\x00\x08\x01\x00\x02\x00\x00\x00\x00\x01\x25\x00\x05\x01\x00\x00\x00\x3C\x00",
            Frame::Data => b"\x08\x00\x45\x00",
        }
    }
}
