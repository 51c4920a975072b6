// The fields of a log's line: numbers, and octets in hex.
ghost use Rattle.std.specs.Prelude.{◌≡◌, ◌≤◌, length};
ghost use Rattle.events.specs.Event.{line_room};
ghost use Rattle.events.specs.Read.{count_in, HexAs};

use crate::FRAME_ROOM;
use crate::digits::{all_digits, unhex};
use octets::same_octets;
use plan_lines::amount_of;

// The first number that is too high.
const TOO_HIGH: u64 = 4294967296;

// A decimal number without leading zeros, at most 4,294,967,295.
pub fn count_of(f: &[u8]) -> Option<u32>
    ensures { result ≡ count_in f.now }
{
    let n = amount_of(f, TOO_HIGH)?;
    if n < TOO_HIGH {
        return Some(n as u32);
    }
    None
}

// Octets in lower-case hex, or `-`, straight into the caller's buffer; answers how many there are.
// Stays `same_octets`: `==` takes a byte string only with `.as_slice()` behind it, and is no plainer.
pub fn octets_of(f: &[u8], room: &mut [u8; FRAME_ROOM]) -> Option<usize>
    requires { length f.now ≤ line_room }
    ensures { HexAs f.now result room.old room.new }
{
    if same_octets(f, b"-") {
        return Some(0);
    }
    if f.len() < 2 {
        return None;
    }
    if f.len() % 2 != 0 {
        return None;
    }
    if !all_digits(f) {
        return None;
    }
    unhex(room, f);
    Some(f.len() / 2)
}
