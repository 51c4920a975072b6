// One session: its key, its time, its notice, its status.
ghost use Rattle.std.specs.Prelude.{◌≡◌, ◌+◌, ◌^◌, ◌<◌};
ghost use Rattle.machine.specs.Machine.{code_octet, key, lasting, owed, after, seconds_left, status_of};

use crate::codes::Code;
use crate::{Change, Machine, Session};
use codec::Status;

// 2^48: how many source addresses there are.
const SOURCES: u64 = 281474976710656;

// Milliseconds of a second.
pub const SECOND: u32 = 1000;

// Flow and source as one number.
pub fn key(flow: u16, source: u64) -> u64
    requires { source < 2 ^ 48 }
    ensures { result ≡ key flow source }
{
    u64::from(flow) * SOURCES + source
}

pub fn lasting(ms: u32, s: Session) -> Session
    ensures { result ≡ lasting ms s }
{
    Session { left: ms, ..s }
}

// Closed, and owed a notice with this code.
pub fn owed(code: Code, s: Session) -> Session
    ensures { result ≡ owed (code_octet code) s }
{
    Session {
        left: 0,
        notice: code.octet(),
        ..s
    }
}

// Seconds left, rounded up.
pub fn seconds_left(ms: u32) -> u32
    ensures { result ≡ seconds_left ms }
{
    ms.div_ceil(SECOND)
}

pub fn status_of(m: Machine) -> Status
    ensures { result ≡ status_of m }
{
    match m {
        Machine::Inactive => Status {
            side: None,
            seconds: 0,
        },
        Machine::Active(s) => Status {
            side: Some(s.side),
            seconds: seconds_left(s.left),
        },
    }
}

// The machine after a change.
pub fn after(change: Change, m: Machine) -> Machine
    ensures { result ≡ after change m }
{
    match change {
        Change::Same => m,
        Change::Opened(s) | Change::Restarted(s) => Machine::Active(s),
        Change::Closed => Machine::Inactive,
    }
}

// What a reply says of the machine after a change.
pub fn status_after(change: Change, m: Machine) -> Status
    ensures { result ≡ status_of (after change m) }
{
    status_of(after(change, m))
}
