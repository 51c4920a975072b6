// Where things stand in an image, in octets from its start, as docs/LAYOUT.md and specs/Layout.antt have them.

pub const IMAGE_LENGTH: usize = 4096;

// The octets of a state, as the host lends them.
pub type Image = [u8; IMAGE_LENGTH];

// The parts of an image. Two eights of octets say how many sessions of the ports are open.
pub const CLOCK_AT: usize = 0;

pub const UNIT_FLAG_AT: usize = 4;

pub const SHARED_ADDRESS_AT: usize = 8;

pub const PORTS_OPEN_AT: usize = 16;

pub const LATER_PORTS_OPEN_AT: usize = 24;

pub const ALLOWED_AT: usize = 32;

pub const PLACES_AT: usize = 64;

pub const PLACES_END: usize = 96;

pub const PORTS_AT: usize = 128;

pub const FLOWS_AT: usize = 256;

pub const PORT_COUNTERS_AT: usize = 1280;

pub const SESSIONS_AT: usize = 1536;

pub const LAST_SESSION_AT: usize = 2016;

pub const SESSIONS_END: usize = 2048;

// Flows and places are counted from 1: flow n's octet or row stands n further than these.
pub const ALLOWED_BEFORE: usize = 31;

pub const PLACES_BEFORE: usize = 63;

pub const FLOWS_BEFORE: usize = 224;

// How many rows the tables have, and how many octets a row.
pub const MOST_PORTS: usize = 8;

pub const MOST_FLOWS: usize = 32;

pub const MOST_SESSIONS: usize = 16;

pub const PORT_WIDTH: usize = 16;

pub const FLOW_WIDTH: usize = 32;

pub const SESSION_WIDTH: usize = 32;

// The last number that a flow can have, and the last place.
pub const LAST_FLOW: u32 = 32;

pub const LAST_PLACE: u8 = 32;

// The row of a port; its address is at the start.
pub const PORT_KIND_AT: usize = 6;

pub const PORT_NUMBER_AT: usize = 7;

pub const PORT_FREE_AT: usize = 8;

// The row of a flow; what is free in it is tested by eights.
pub const FLOW_NUMBER_AT: usize = 1;

pub const FLOW_VID_AT: usize = 4;

pub const FLOW_KIND_AT: usize = 6;

pub const FLOW_PORT_AT: usize = 7;

pub const FLOW_MPS_AT: usize = 8;

pub const FLOW_FREE_AT: usize = 16;

pub const FLOW_LATER_FREE_AT: usize = 24;

// The row of a session; its source is at the start, and with the flow it is the key.
pub const SESSION_FLOW_AT: usize = 6;

pub const SESSION_LEFT_AT: usize = 8;

pub const SESSION_NOTICE_AT: usize = 12;

pub const SESSION_LEVEL_AT: usize = 13;

pub const SESSION_SIDE_AT: usize = 14;

pub const SESSION_TAGLEN_AT: usize = 15;

pub const SESSION_TAG_AT: usize = 16;

pub const SESSION_FREE_AT: usize = 24;
