// What a request's action does.
ghost use Rattle.std.specs.Prelude.{◌≡◌, ◌*◌, ◌<◌};
ghost use Rattle.machine.specs.Machine.{answered, code_octet, numbered, good_seconds, admitted, same_mp, restarted, refreshed, closed, decided};

use crate::actions::{ADMIT, ALREADY, CLOSE, REPORT, RESTART};
use crate::codes::Code;
use crate::sessions::{SECOND, lasting};
use crate::{Change, Decided, Machine, Session};

// A session lasts from one second to so many.
const MOST_SECONDS: u32 = 86400;

// A failed request changes nothing.
fn answered(code: Code) -> Decided
    ensures { numbered result ≡ answered (code_octet code) }
{
    Decided {
        code,
        change: Change::Same,
    }
}

// Does a session last so long?
fn good_seconds(seconds: u32) -> bool
    ensures { result ≡ good_seconds seconds }
{
    matches!(seconds, 1..=MOST_SECONDS)
}

// Activate at an inactive machine. `full` is 0 when one more session may open.
fn admitted(full: u8, seconds: u32, new: Session) -> Decided
    ensures { numbered result ≡ admitted full seconds new }
{
    if !good_seconds(seconds) {
        return answered(Code::Unsupported);
    }
    if full != 0 {
        return answered(Code::of(full));
    }
    Decided {
        code: Code::NoError,
        change: Change::Opened(lasting(seconds * SECOND, new)),
    }
}

fn same_mp(new: Session, s: Session) -> bool
    ensures { result ≡ same_mp new s }
{
    new.level == s.level && new.side == s.side
}

// Activate at an active machine.
fn restarted(seconds: u32, new: Session, m: Machine) -> Decided
    ensures { numbered result ≡ restarted seconds new m }
{
    match m {
        Machine::Inactive => answered(Code::WrongMp),
        Machine::Active(s) => refreshed(seconds, new, s),
    }
}

fn refreshed(seconds: u32, new: Session, s: Session) -> Decided
    ensures { numbered result ≡ refreshed seconds new s }
{
    if !same_mp(new, s) {
        return answered(Code::WrongMp);
    }
    if !good_seconds(seconds) {
        return answered(Code::Unsupported);
    }
    Decided {
        code: Code::AlreadyActive,
        change: Change::Restarted(lasting(seconds * SECOND, s)),
    }
}

// Deactivate at an active machine.
fn closed(new: Session, m: Machine) -> Decided
    ensures { numbered result ≡ closed new m }
{
    match m {
        Machine::Active(s) if same_mp(new, s) => Decided {
            code: Code::NoError,
            change: Change::Closed,
        },
        _ => answered(Code::WrongMp),
    }
}

// The request's action carried out. `new` is the session that an Activate would open.
// Stays a number, `full`: the definition `admitted` answers with it, whatever it is, unless it is 0.
pub fn decide(action: u8, full: u8, seconds: u32, new: Session, m: Machine) -> Decided
    ensures { numbered result ≡ decided action full seconds new m }
{
    match action {
        ADMIT => admitted(full, seconds, new),
        RESTART => restarted(seconds, new, m),
        ALREADY => answered(Code::AlreadyInactive),
        CLOSE => closed(new, m),
        REPORT => answered(Code::NoError),
        _ => answered(Code::UnknownError),
    }
}
