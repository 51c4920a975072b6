// The message layer, read: a frame once, its sets, the PDU of a request.
#![tactic(auto)]

mod frame;
mod pdu;
mod requests;
mod words;

pub use frame::{is_group, set_of, source_of};
pub use pdu::{ACTIVATE, DEACTIVATE, LLR, STATE, addressed_to, heading_of};
pub use requests::{first_tlv, read_request};
pub use words::{
    C_TAG, C_TAGGED, CEN, ENNI, EXTERNAL, OAM_TYPE, S_TAG, S_TAGGED, TAG_LENGTH, UNI, UNTAGGED,
    VIDS,
};

// A frame set of a port. Its kind is 1 untagged, 2 C-tagged, 3 S-tagged; its VID is 0 where it is untagged.
#[derive(Clone, Copy)]
pub struct FrameSet {
    pub kind: u8,
    pub vid: u16,
}

// Where a frame belongs: its set, and how many octets of tag it has before the type.
#[derive(Clone, Copy)]
pub struct Place {
    pub set: FrameSet,
    pub taglen: usize,
}

// What is read of a frame once: its addresses, and whether it is service OAM; of service OAM alone whether it is a request, and the
// level and the message type of its PDU.
// Stays flat: `mp_of` and `fate_of` are handed the level of every frame, service OAM or not, so an Option would end in a 0 again.
#[derive(Clone, Copy)]
pub struct Heading {
    pub destination: u64,
    pub source: u64,
    pub soam: bool,
    pub request: bool,
    pub level: u8,
    pub kind: u8,
}

// Whom the destination of a request means: nobody here, the port, or every MP of the request's level.
#[derive(Clone, Copy)]
pub enum Addressed {
    Elsewhere,
    Unicast,
    Multicast,
}

// What a request says. An Activate has its seconds.
#[derive(Clone, Copy)]
pub enum Request {
    Malformed,
    Reserved,
    Activate(u32),
    Deactivate,
    State,
}

// What is read of a request: what it says, and how many octets of unknown TLVs its reply copies.
#[derive(Clone, Copy)]
pub struct Read {
    pub request: Request,
    pub copies: usize,
}

// What a reply says of its machine after the call: its session's side if it is active, and the seconds left, 0 where it is inactive.
#[derive(Clone, Copy)]
pub struct Status {
    pub side: Option<u8>,
    pub seconds: u32,
}
