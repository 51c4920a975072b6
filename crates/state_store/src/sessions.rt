// All sessions at once: time passes, a flow is allowed or prohibited, the unit restarts.
ghost use Rattle.std.specs.Prelude.{◌≡◌, length};
ghost use Rattle.machine.specs.declared.Session.{Session};
ghost use Rattle.machine.specs.Machine.{key_of};
ghost use Rattle.state_store.specs.StoredRows.{sessions_mapped, Swept, sessions_cleared};

use crate::row::write_rest;
use machine::Session;
use octets::{clear, low8};
use state::{Image, MOST_SESSIONS, SESSION_WIDTH, SESSIONS_AT, SESSIONS_END, read_session};

// Puts each session through a step. What it answers is written behind the row's key; the key stays, whatever flow and source are answered.
pub fn sweep_sessions<F: Fn(Session) -> Session>(b: &mut [u8], step: F)
    requires long { length b.old ≡ 4096 }
    requires callable { F.IsAlwaysCallable step }
    ensures mapped { (f : Session → Session) → ((x : Session) → key_of (f x) ≡ key_of x)
        → ((x : Session) (y : Session) → F.post step x y → y ≡ f x) → b.new ≡ sessions_mapped f b.old }
    ensures swept { Swept (F.post step) b.old b.new }
{
    for i in 0..MOST_SESSIONS {
        let at = SESSIONS_AT + i * SESSION_WIDTH;
        if low8(b, at) == 0 {
            return;
        }
        let x = read_session(b, at);
        write_rest(b, at, step(x));
    }
}

pub fn clear_sessions(b: &mut Image)
    ensures { b.new ≡ sessions_cleared b.old }
{
    clear(b, SESSIONS_AT, SESSIONS_END);
}

#[cfg(test)]
mod tests {
    use super::*;

    // Two sessions of flow 5, and a step that would take them to flow 9.
    #[test]
    fn swept_rows_keep_their_keys(rt: HostRuntime) {
        let mut b = [0u8; 4096];
        for at in [1536, 1568] {
            b[at] = 0xAA;
            b[at + 6] = 5;
            b[at + 13] = 3;
        }
        let was = b;
        sweep_sessions(
            &mut b,
            |x| Session {
                flow: 9,
                left: 0x0708,
                ..x
            },
        );
        for at in 0..4096 {
            let want = match at {
                1544 | 1576 => 8,
                1545 | 1577 => 7,
                _ => was[at],
            };
            assert_eq!(rt; b[at], want, "at {at}");
        }
    }
}
