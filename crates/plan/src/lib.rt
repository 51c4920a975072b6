// The plan: its records, and rules of it that several rooms test.
#![tactic(auto)]

mod rules;
mod words;

pub use rules::{faces, good_address, set_key};
pub use words::{
    DOWN, FLOWS, HIGHEST_FLOW, HIGHEST_LEVEL, HIGHEST_PORT, HIGHEST_VID, LEVELS, LONGEST_TEXT, MIP,
    MOST_MPS, PORTS, UP,
};

// A port: its kind is 1 UNI, 2 ENNI.
// Stays a number, as the kinds of flows and MPs do: `ok_image` and `state_of` (state Image) read each from the image's octet as it stands.
#[derive(Clone, Copy)]
pub struct Port {
    pub number: u8,
    pub kind: u8,
    pub address: u64,
}

// A flow: a frame set of a port (kind 1 untagged, 2 C-tagged, 3 S-tagged, and the VID), with its MP at each level from 0 to 7:
// 0 none, 1 up, 2 down, 3 MIP.
#[derive(Clone, Copy)]
pub struct Flow {
    pub number: u8,
    pub port: u8,
    pub kind: u8,
    pub vid: u16,
    pub mps: [u8; LEVELS],
}

// A plan by value: ports in ascending number, flows in ascending port and frame set. A row with number 0 is empty, and so is every row
// behind it.
// Stays so, with no Option: `by_value`, `no_port` and `no_flow` (specs/) say what each row holds, also one that is not used.
#[derive(Clone, Copy)]
pub struct Records {
    pub ports: [Port; PORTS],
    pub flows: [Flow; FLOWS],
}
