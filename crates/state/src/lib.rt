// The state's one image, on the lent octets: where things stand in it, and what it says.
#![tactic(auto)]

mod fields;
mod layout;
mod records;
mod rows;

pub use fields::{
    allows, clock_of, full_for, machine_at, machine_of, mp_of, notice_due, number_of, open_count,
    port_numbered,
};
pub use layout::{
    ALLOWED_AT, ALLOWED_BEFORE, CLOCK_AT, FLOW_FREE_AT, FLOW_KIND_AT, FLOW_LATER_FREE_AT,
    FLOW_MPS_AT, FLOW_PORT_AT, FLOW_VID_AT, FLOW_WIDTH, FLOWS_AT, IMAGE_LENGTH, Image, LAST_FLOW,
    LAST_SESSION_AT, LATER_PORTS_OPEN_AT, MOST_FLOWS, MOST_PORTS, MOST_SESSIONS, PLACES_AT,
    PLACES_BEFORE, PLACES_END, PORT_COUNTERS_AT, PORT_FREE_AT, PORT_KIND_AT, PORT_NUMBER_AT,
    PORT_WIDTH, PORTS_AT, PORTS_OPEN_AT, SESSION_FREE_AT, SESSION_WIDTH, SESSIONS_AT, SESSIONS_END,
    SHARED_ADDRESS_AT, UNIT_FLAG_AT,
};
pub use records::{read_port, read_session, wide};
pub use rows::{flow_at, numbered_at, owed_at, port_at, session_at};
