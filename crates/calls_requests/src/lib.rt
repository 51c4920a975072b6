// A request for an MP, answered on the lent image.
#![tactic(auto)]

use codec::Heading;
use plan::Port;

mod decision;
mod pdu;
mod reply;
mod request;

pub use request::serve_request;

// A frame that arrived in a flow, read once. It has the number of the port that it arrived at, the port whose machine it is for, and
// the sources of a reply and of a looped group frame; its side, its flow's number, that flow's MP at its level, how many octets of
// tag its set has, and what else is read of it.
#[derive(Clone, Copy)]
pub struct Arrival {
    pub arrival: u8,
    pub port: Port,
    pub replier: u64,
    pub looper: u64,
    pub side: u8,
    pub flow: u8,
    pub mp: u8,
    pub taglen: usize,
    pub heading: Heading,
}

// What a request asks of its machine: its column of the table, and its seconds.
#[derive(Clone, Copy)]
pub struct Asked {
    pub event: usize,
    pub seconds: u32,
}
