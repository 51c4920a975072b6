// A row of the image, by value.
ghost use Rattle.std.specs.Prelude.{◌≡◌, ◌+◌, ◌<◌, ◌≤◌, ◌^◌, length, drop};
ghost use Rattle.state.specs.Image.{port_in, session_in};

use crate::layout::{
    PORT_KIND_AT, PORT_NUMBER_AT, SESSION_FLOW_AT, SESSION_LEFT_AT, SESSION_LEVEL_AT,
    SESSION_NOTICE_AT, SESSION_SIDE_AT, SESSION_TAG_AT, SESSION_TAGLEN_AT,
};
use machine::Session;
use octets::{low2, low4, low6, low8};
use plan::Port;

pub fn wide(x: u8) -> usize
    ensures { (result ≡ x) × (result < 256) }
{
    x as usize
}

pub fn read_port(b: &[u8], at: usize) -> Port
    requires { at + 16 ≤ length b.now }
    ensures { result ≡ port_in (drop at b.now) }
{
    Port {
        number: b[at + PORT_NUMBER_AT],
        kind: b[at + PORT_KIND_AT],
        address: low6(b, at),
    }
}

pub fn read_session(b: &[u8], at: usize) -> Session
    requires { at + 32 ≤ length b.now }
    ensures { (result ≡ session_in (drop at b.now)) × (result.source < 2 ^ 48) }
{
    Session {
        flow: low2(b, at + SESSION_FLOW_AT),
        source: low6(b, at),
        level: b[at + SESSION_LEVEL_AT],
        side: b[at + SESSION_SIDE_AT],
        taglen: b[at + SESSION_TAGLEN_AT],
        tag: low8(b, at + SESSION_TAG_AT),
        left: low4(b, at + SESSION_LEFT_AT),
        notice: b[at + SESSION_NOTICE_AT],
    }
}
