// The clock, and a session as time passes.
ghost use Rattle.std.specs.Prelude.{◌≡◌};
ghost use Rattle.machine.specs.Time.{elapsed, jumped, ticked};

use crate::Session;
use crate::events::{ACTIVE, TIMER_EXPIRATION};
use crate::management::closed_by;
use crate::sessions::lasting;
use crate::table::action;

// A clock that moved so many milliseconds, or more, jumped.
const JUMP: u32 = 2147483648;

// The new reading less the last, modulo 2^32.
pub fn elapsed(new: u32, last: u32) -> u32
    ensures { result ≡ elapsed new last }
{
    new.wrapping_sub(last)
}

// Did the clock move 2^31 ms or more?
pub fn jumped(new: u32, last: u32) -> bool
    ensures { result ≡ jumped new last }
{
    JUMP <= elapsed(new, last)
}

// The session after so many milliseconds.
pub fn ticked(passed: u32, s: Session) -> Session
    ensures { result ≡ ticked passed s }
{
    if s.notice != 0 {
        return s;
    }
    let left = s.left;
    if left <= passed {
        return closed_by(action(ACTIVE, TIMER_EXPIRATION), s);
    }
    lasting(left - passed, s)
}
