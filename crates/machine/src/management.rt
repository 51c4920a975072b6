// What closes a session, and what allows and prohibits a flow.
ghost use Rattle.std.specs.Prelude.{◌≡◌};
ghost use Rattle.machine.specs.Management.{closed_by, managed_by, allowed_after};

use crate::Session;
use crate::actions::{EXPIRE, LIFT, NOTHING, WITHDRAW};
use crate::codes::Code;
use crate::sessions::owed;

// An action carried out on an open session.
pub fn closed_by(action: u8, s: Session) -> Session
    ensures { result ≡ closed_by action s }
{
    match action {
        NOTHING => s,
        EXPIRE => owed(Code::Timeout, s),
        WITHDRAW => owed(Code::Prohibited, s),
        _ => owed(Code::UnknownError, s),
    }
}

// And on a session, if it is an open one of the flow.
pub fn managed_by(action: u8, flow: u16, s: Session) -> Session
    ensures { result ≡ managed_by action flow s }
{
    if s.notice == 0 && s.flow == flow {
        return closed_by(action, s);
    }
    s
}

// Is the flow allowed after an action?
pub fn allowed_after(action: u8, allowed: bool) -> bool
    ensures { result ≡ allowed_after action allowed }
{
    match action {
        NOTHING => allowed,
        LIFT => true,
        _ => false,
    }
}
