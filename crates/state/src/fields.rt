// What an image says, whatever its octets are.
ghost use Rattle.std.specs.Prelude.{◌≡◌, ◌+◌, ◌≤◌, length, drop, IfSome, option_map};
ghost use Rattle.octets.specs.Lists.{count};
ghost use Rattle.machine.specs.Machine.{is_open};
ghost use Rattle.plan.specs.declared.Flow.{Flow};
ghost use Rattle.plan.specs.Plan.{port_numbered, mp_at};
ghost use Rattle.state.specs.State.{is_allowed, machine_of, full_for, notice_due};
ghost use Rattle.state.specs.Image.{flow_in, state_of};
ghost use Rattle.state.specs.Rows.{flow_of_row, machine_of_row};

use crate::layout::{
    ALLOWED_BEFORE, CLOCK_AT, FLOW_MPS_AT, FLOW_NUMBER_AT, Image, MOST_SESSIONS, SESSION_NOTICE_AT,
    SESSION_WIDTH, SESSIONS_AT,
};
use crate::records::{read_port, read_session, wide};
use crate::rows::{owed_at, port_at, session_at};
use machine::Machine;
use octets::{low4, low8};
use plan::Port;

// The octet of the code MaxSessionsExceeded.
const MAX_SESSIONS_EXCEEDED: u8 = 2;

pub fn clock_of(b: &Image) -> u32
    ensures { result ≡ (state_of b.now).clock }
{
    low4(b, CLOCK_AT)
}

// A port by its number, or one with number 0.
pub fn port_numbered(b: &Image, number: u32) -> Port
    ensures { result ≡ port_numbered number (state_of b.now).plan }
{
    let Some(at) = port_at(b, number) else {
        return Port {
            number: 0,
            kind: 0,
            address: 0,
        };
    };
    read_port(b, at)
}

// The number of the flow of a row, if there is one.
pub fn number_of(b: &[u8], row: Option<usize>) -> Option<u8>
    requires { IfSome row (λ at. at + 32 ≤ length b.now) }
    ensures { result ≡ option_map (λ at. (flow_in (drop at b.now)).number) row }
{
    row.map(|at| b[at + FLOW_NUMBER_AT])
}

// The MP at a level of the flow of a row; of no row, 0.
// Stays a number: the definition `mp_at` has 0 for no MP, and `faces` takes it.
pub fn mp_of(b: &[u8], row: Option<usize>, level: u8) -> u8
    requires { IfSome row (λ at. at + 32 ≤ length b.now) }
    ensures { result ≡ mp_at level (flow_of_row row b.now) }
{
    let Some(at) = row else {
        return 0;
    };
    if 7 < level {
        return 0;
    }
    b[at + FLOW_MPS_AT + wide(level)]
}

pub fn allows(b: &Image, flow: usize) -> bool
    requires { (1 ≤ flow) × (flow ≤ 32) }
    ensures { result ≡ is_allowed flow (state_of b.now) }
{
    b[ALLOWED_BEFORE + flow] == 1
}

// The machine of a key, whose session's row is this; without one, it is inactive.
pub fn machine_at(b: &[u8], row: Option<usize>) -> Machine
    requires { IfSome row (λ at. at + 32 ≤ length b.now) }
    ensures { result ≡ machine_of_row row b.now }
{
    let Some(at) = row else {
        return Machine::Inactive;
    };
    let s = read_session(b, at);
    if s.notice != 0 {
        return Machine::Inactive;
    }
    Machine::Active(s)
}

pub fn machine_of(b: &Image, key: u64) -> Machine
    ensures { result ≡ machine_of key (state_of b.now).sessions }
{
    machine_at(b, session_at(b, key))
}

pub fn notice_due(b: &Image) -> bool
    ensures { result ≡ notice_due (state_of b.now) }
{
    owed_at(b).is_some()
}

pub fn open_count(b: &Image) -> usize
    ensures { result ≡ count is_open (state_of b.now).sessions }
{
    let mut n: usize = 0;
    for i in 0..MOST_SESSIONS {
        let at = SESSIONS_AT + i * SESSION_WIDTH;
        if low8(b, at) == 0 {
            return n;
        }
        n += usize::from(b[at + SESSION_NOTICE_AT] == 0);
    }
    n
}

// Is the unit full for one more session? 0, or the code of the reply.
// Stays a number: the definition `full_for` has 0 for room, and `decide` takes it.
pub fn full_for(b: &Image) -> u8
    ensures { (f : Flow) → result ≡ full_for f (state_of b.now) }
{
    if open_count(b) < MOST_SESSIONS {
        return 0;
    }
    MAX_SESSIONS_EXCEEDED
}
