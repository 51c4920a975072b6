// The message layer's TLV lists, walked where they lie: what stands at a place, what a list comes to, and the copy of what is unknown.
#![tactic(auto)]

mod copies;
mod kinds;
mod readers;
mod steps;
mod summaries;
mod words;

pub use copies::copy_unknown;
pub use readers::TlvReader;
pub use summaries::summary_of;
pub use words::{TIMER, TIMER_LENGTH, TIMER_SUBTYPE};

// A TLV where it lies: its type, where its value starts, how many octets that has, and where the next TLV stands.
#[derive(Clone, Copy, Debug, PartialEq, Eq)]
pub struct Tlv {
    pub kind: u8,
    pub start: usize,
    pub len: usize,
    pub next: usize,
}

// A list that is bad. Nothing more is said of it.
#[derive(Clone, Copy, Debug, PartialEq, Eq)]
pub struct BadList;

// What a good list comes to: the seconds of its timer, if it has one, and how many octets its unknown TLVs have.
#[derive(Clone, Copy, Debug, PartialEq, Eq)]
pub struct Summary {
    pub seconds: Option<u32>,
    pub unknown: usize,
}
