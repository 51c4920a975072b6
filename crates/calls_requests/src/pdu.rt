// The tag of a frame as a number, and the request behind it.
ghost use Rattle.std.specs.Prelude.{◌≡◌, ◌+◌, ◌≤◌, length, drop};
ghost use Rattle.octets.specs.Octets.{number};
ghost use Rattle.codec.specs.FrameSet.{pdu_of};
ghost use Rattle.codec.specs.Request.{type_of, read_of};

use codec::{Addressed, Heading, Read, read_request};

// The number of a frame's tag octets.
pub fn tag_of(taglen: usize, frame: &[u8]) -> u64
    requires { (taglen ≤ 4) × (12 + taglen ≤ length frame.now) }
    ensures { result ≡ number taglen (drop 12 frame.now) }
{
    let mut n: u64 = 0;
    for x in &frame[12..12 + taglen] {
        n = n * 256 + u64::from(*x);
    }
    n
}

// The request behind so many octets of tag, read. Its heading has been read.
pub fn read_behind(whom: Addressed, h: Heading, taglen: usize, frame: &[u8]) -> Read
    requires { (26 + taglen ≤ length frame.now) × (h.kind ≡ type_of (pdu_of taglen frame.now)) }
    ensures { result ≡ read_of whom h.destination (pdu_of taglen frame.now) }
{
    let start = 14 + taglen;
    read_request(whom, h.destination, h.kind, &frame[start..])
}
