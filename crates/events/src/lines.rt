// A line of a log, read into an event.
#![tactic(auto, using(plan_lines::proofs::Spelt::reads_same, crate::proofs::LogWords::alone_read), unfolding(octets::specs::Text::text, crate::specs::Read::logged, crate::specs::Read::numbered))]

ghost use Rattle.std.specs.Prelude.{◌≡◌, false, [], ◌∷◌, ◌≤◌, length};
ghost use Rattle.octets.specs.Octets.{same};
ghost use Rattle.octets.specs.Text.{text};
ghost use Rattle.plan.specs.Line.{tab, parted};
ghost use Rattle.events.specs.Event.{as_frame, by_word, event_of, line_room};
ghost use Rattle.events.specs.Read.{logged, numbered, ReadAs};

use crate::fields::{count_of, octets_of};
use crate::{FRAME_ROOM, LINE_ROOM, Logged};
use octets::same_octets;
use plan_lines::{TAB, end_of};

// A frame by its fields; behind the side stands what has to be one field.
fn framed(port: &[u8], side: &[u8], hex: &[u8], room: &mut [u8; FRAME_ROOM]) -> Option<Logged>
    requires { length hex.now ≤ line_room }
    ensures { ReadAs (as_frame ([] ∷ port.now ∷ side.now ∷ parted tab hex.now)) result
        room.old room.new }
{
    let port = count_of(port)?;
    let side = count_of(side)?;
    let n = octets_of(hex, room)?;
    Some(Logged::Frame(port, side, n))
}

// A frame by what stands behind the first tab. The word itself plays no part: [] stands for it.
fn frame_of(rest: &[u8], room: &mut [u8; FRAME_ROOM]) -> Option<Logged>
    requires { length rest.now ≤ line_room }
    ensures { ReadAs (as_frame ([] ∷ parted tab rest.now)) result room.old room.new }
{
    let one = end_of(rest, 0, TAB);
    if one == rest.len() {
        return None;
    }
    let two = end_of(rest, one + 1, TAB);
    if two == rest.len() {
        return None;
    }
    framed(&rest[0..one], &rest[one + 1..two], &rest[two + 1..], room)
}

// A word with a number behind it.
fn by_number(word: &[u8], n: u32) -> Option<Logged>
    ensures { result ≡ logged (numbered word.now n) }
{
    match word {
        b"tick" => Some(Logged::Tick(n)),
        b"allow" => Some(Logged::Allow(n)),
        b"prohibit" => Some(Logged::Prohibit(n)),
        b"restart" => Some(Logged::Restart(n)),
        _ => None,
    }
}

// Any word but `frame`, with something behind it.
fn other_of(word: &[u8], rest: &[u8]) -> Option<Logged>
    requires { same word.now (text "frame") ≡ false }
    ensures { result ≡ logged (by_word (word.now ∷ parted tab rest.now)) }
{
    let n = count_of(rest)?;
    by_number(word, n)
}

// A line by its word and what stands behind the first tab.
// Stays `same_octets`: `==` takes a byte string only with `.as_slice()` behind it, and is no plainer.
fn worded(word: &[u8], rest: &[u8], room: &mut [u8; FRAME_ROOM]) -> Option<Logged>
    requires { length rest.now ≤ line_room }
    ensures { ReadAs (by_word (word.now ∷ parted tab rest.now)) result
        room.old room.new }
{
    if same_octets(word, b"frame") {
        return frame_of(rest, room);
    }
    other_of(word, rest)
}

// A line without a tab.
fn alone(word: &[u8]) -> Option<Logged>
    ensures { result ≡ logged (by_word (word.now ∷ [])) }
{
    match word {
        b"notice" => Some(Logged::Notice),
        _ => None,
    }
}

// A line without its LF; none that can't be read. A frame's octets go straight into the caller's buffer.
pub fn read_event(line: &[u8], room: &mut [u8; FRAME_ROOM]) -> Option<Logged>
    ensures { ReadAs (event_of line.now) result room.old room.new }
{
    if LINE_ROOM < line.len() {
        return None;
    }
    let end = end_of(line, 0, TAB);
    if end == line.len() {
        return alone(line);
    }
    worded(&line[0..end], &line[end + 1..], room)
}
