// The eight events in three states.
ghost use Rattle.std.specs.Prelude.{◌≡◌, ◌<◌};
ghost use Rattle.machine.specs.Table.{action_at, condition_number};
ghost use Rattle.machine.specs.Machine.{activity, condition_of};

use crate::Machine;
use crate::actions::{
    ADMIT, ALREADY, CLOSE, EXPIRE, FORBID, FORWARD, LIFT, NOTHING, REPORT, RESTART, TURN, WITHDRAW,
};
use crate::events::{ACTIVE, INACTIVE, PROHIBITED};

// State by event, as MEF 46 7.1.5 has them: the action that the step carries out.
// Stays an array of numbers: FORM-2 of docs/RULES.md asks for it, a row for each state and a column for each event.
pub const ACTION: [[u8; 8]; 3] = [
    [
        NOTHING, // prohibited, activate
        NOTHING, // prohibited, deactivate
        NOTHING, // prohibited, state
        FORWARD, // prohibited, ingress data
        FORWARD, // prohibited, egress data
        LIFT, // prohibited, allow
        NOTHING, // prohibited, prohibit
        NOTHING, // prohibited, timer expiration
    ],
    [
        ADMIT, // inactive, activate
        ALREADY, // inactive, deactivate
        REPORT, // inactive, state
        FORWARD, // inactive, ingress data
        FORWARD, // inactive, egress data
        NOTHING, // inactive, allow
        FORBID, // inactive, prohibit
        NOTHING, // inactive, timer expiration
    ],
    [
        RESTART, // active, activate
        CLOSE, // active, deactivate
        REPORT, // active, state
        TURN, // active, ingress data
        TURN, // active, egress data
        NOTHING, // active, allow
        WITHDRAW, // active, prohibit
        EXPIRE, // active, timer expiration
    ],
];

pub fn action(condition: usize, event: usize) -> u8
    requires { (condition < 3) × (event < 8) }
    ensures { result ≡ action_at condition event }
{
    ACTION[condition][event]
}

// The row of a machine, if its flow is allowed.
fn row_of(m: Machine) -> usize
    ensures { (result ≡ condition_number (activity m)) × (result < 3) }
{
    match m {
        Machine::Inactive => INACTIVE,
        Machine::Active(_) => ACTIVE,
    }
}

// And whether it is allowed or not.
pub fn condition_of(allowed: bool, m: Machine) -> usize
    ensures { (result ≡ condition_number (condition_of allowed m)) × (result < 3) }
{
    if allowed {
        return row_of(m);
    }
    PROHIBITED
}
