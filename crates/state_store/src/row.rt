// The row of a session, written.
ghost use Rattle.std.specs.Prelude.{◌≡◌, ◌+◌, ◌<◌, ◌≤◌, ◌^◌, length, drop};
ghost use Rattle.octets.specs.Octets.{low_octets, splice};
ghost use Rattle.machine.specs.Machine.{key_of};
ghost use Rattle.state.specs.Image.{session_row};
ghost use Rattle.state_store.specs.StoredRows.{row_put};

use machine::{Session, key};
use octets::put_at;

// How many octets a key has, at the start of a session's row.
const KEY_WIDTH: usize = 8;

pub fn key_of(x: Session) -> u64
    requires { x.source < 2 ^ 48 }
    ensures { result ≡ key_of x }
{
    key(x.flow, x.source)
}

// The octets behind the key.
fn rest_octets(x: Session) -> [u8; 24]
    ensures { result ≡ drop 8 (session_row x) }
{
    let left = x.left.to_le_bytes();
    let tag = x.tag.to_le_bytes();
    [
        left[0], left[1], left[2], left[3], x.notice, x.level, x.side, x.taglen, tag[0], tag[1],
        tag[2], tag[3], tag[4], tag[5], tag[6], tag[7], 0, 0, 0, 0, 0, 0, 0, 0,
    ]
}

// Writes what stands behind the key of the row at `at`.
pub fn write_rest(b: &mut [u8], at: usize, x: Session)
    requires { at + 32 ≤ length b.old }
    ensures { b.new ≡ splice (at + 8) (drop 8 (session_row x)) b.old }
{
    put_at(b, at + KEY_WIDTH, &rest_octets(x));
}

pub fn write_session(b: &mut [u8], at: usize, x: Session)
    requires { (at + 32 ≤ length b.old) × (x.source < 2 ^ 48) }
    ensures { b.new ≡ row_put at x b.old }
{
    put_at(b, at, &key_of(x).to_le_bytes());
    write_rest(b, at, x);
}
