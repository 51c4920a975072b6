// The machine layer: the table of twenty-four entries, one session's step, time. By value only.
#![tactic(auto)]

mod actions;
mod codes;
mod events;
mod management;
mod request;
mod sessions;
mod table;
mod time;
mod traffic;

pub use actions::ADMIT;
pub use codes::Code;
pub use events::{ACTIVE, MGMT_ALLOW, MGMT_PROHIBIT, RQST_ACTIVATE, RQST_DEACTIVATE, RQST_STATE};
pub use management::{allowed_after, managed_by};
pub use request::decide;
pub use sessions::{key, status_after};
pub use table::{action, condition_of};
pub use time::{elapsed, jumped, ticked};
pub use traffic::{data_event, fate_of};

// A session of a flow and a source address. The tag is the number of its octets, of which there are `taglen`. A session is open
// while `notice` is 0; closed, it is owed a notice with that code and has no time left.
// Stays numbers, level, side and notice: `state_of` and `ok_image` (state specs/Image) read each octet of an image as it stands, and
// which are right is said by validity.
#[derive(Clone, Copy)]
pub struct Session {
    pub flow: u16,
    pub source: u64,
    pub level: u8,
    pub side: u8,
    pub taglen: u8,
    pub tag: u64,
    pub left: u32,
    pub notice: u8,
}

// The machine of one port, frame set and source address on an allowed flow.
// Stays an enum of its own, though of Option's shape: its cases are the states of MEF 46 by their names there.
#[derive(Clone, Copy)]
pub enum Machine {
    Inactive,
    Active(Session),
}

// What becomes of a session by a request.
#[derive(Clone, Copy)]
pub enum Change {
    Same,
    Opened(Session),
    Restarted(Session),
    Closed,
}

// The answer to a request: its response code, and what becomes of the session.
#[derive(Clone, Copy)]
pub struct Decided {
    pub code: Code,
    pub change: Change,
}

// What becomes of a data frame.
#[derive(Clone, Copy)]
pub enum Fate {
    Forward,
    Drop,
    Loop,
}
