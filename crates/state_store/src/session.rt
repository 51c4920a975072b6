// One session: put in its place, or taken out.
ghost use Rattle.std.specs.Prelude.{◌≡◌, ◌<◌, ◌≤◌, ◌^◌, length, IfSome};
ghost use Rattle.machine.specs.Machine.{key_of};
ghost use Rattle.state.specs.Rows.{row_found, session_at};
ghost use Rattle.state_store.specs.StoredRows.{place_of, session_inserted, session_put, row_removed};

use crate::row::{key_of, write_rest, write_session};
use machine::Session;
use octets::{clear, low8, move_down, move_up};
use state::{Image, LAST_SESSION_AT, MOST_SESSIONS, SESSION_WIDTH, SESSIONS_AT, SESSIONS_END};

fn place_of(b: &Image, key: u64) -> usize
    ensures { result ≡ place_of key b.now }
{
    for i in 0..MOST_SESSIONS {
        let at = SESSIONS_AT + i * SESSION_WIDTH;
        let k = low8(b, at);
        if k == 0 {
            return at;
        }
        if key <= k {
            return at;
        }
    }
    SESSIONS_END
}

// Puts in a session whose key has no row.
fn insert_session(b: &mut Image, x: Session)
    requires { x.source < 2 ^ 48 }
    ensures { b.new ≡ session_inserted x b.old }
{
    let at = place_of(b, key_of(x));
    if SESSIONS_END <= at {
        return;
    }
    move_up(b, SESSION_WIDTH, at, LAST_SESSION_AT);
    write_session(b, at, x);
}

// The row is that of the session's key, if it has one.
pub fn put_session(b: &mut Image, row: Option<usize>, x: Session)
    requires { (x.source < 2 ^ 48) × (row ≡ row_found (session_at (key_of x) b.old)) }
    ensures { b.new ≡ session_put x b.old }
{
    match row {
        Some(at) => write_rest(b, at, x),
        None => insert_session(b, x),
    }
}

// Takes out the session of a row, if there is one.
pub fn remove_session(b: &mut Image, row: Option<usize>)
    requires { IfSome row (λ at. at ≤ 2016) }
    ensures { b.new ≡ row_removed row b.old }
{
    if let Some(at) = row {
        move_down(b, SESSION_WIDTH, at + SESSION_WIDTH, SESSIONS_END);
        clear(b, LAST_SESSION_AT, SESSIONS_END);
    }
}
