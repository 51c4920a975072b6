// What becomes of a data frame.
ghost use Rattle.std.specs.Prelude.{◌≡◌, ◌<◌};
ghost use Rattle.machine.specs.Machine.{data_event, passes, turned, fate_of};
ghost use Rattle.machine.specs.Table.{event_number};

use crate::actions::{FORWARD, TURN};
use crate::events::{EGRESS_DATA, INGRESS_DATA};
use crate::{Fate, Machine, Session};

// The side of the External Network.
const EXTERNAL: u8 = 0;

// The column of a data frame from a side.
pub fn data_event(side: u8) -> usize
    ensures { (result ≡ event_number (data_event side)) × (result < 8) }
{
    if side == EXTERNAL {
        return INGRESS_DATA;
    }
    EGRESS_DATA
}

// Is it SOAM of the session's level or below?
fn passes(soam: bool, level: u8, s: Session) -> bool
    ensures { result ≡ passes soam level s }
{
    soam && level <= s.level
}

fn turned(soam: bool, level: u8, side: u8, m: Machine) -> Fate
    ensures { result ≡ turned soam level side m }
{
    let Machine::Active(s) = m else {
        return Fate::Drop;
    };
    if passes(soam, level, s) {
        return Fate::Forward;
    }
    if side == s.side {
        return Fate::Loop;
    }
    Fate::Drop
}

// A data frame's action carried out.
pub fn fate_of(action: u8, soam: bool, level: u8, side: u8, m: Machine) -> Fate
    ensures { result ≡ fate_of action soam level side m }
{
    match action {
        FORWARD => Fate::Forward,
        TURN => turned(soam, level, side, m),
        _ => Fate::Drop,
    }
}
