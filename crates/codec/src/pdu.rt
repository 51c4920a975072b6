// "Requests at an MP": the PDU's octets, whom a request is for, and what it says.
ghost use Rattle.std.specs.Prelude.{◌≡◌, ◌+◌, ◌<◌, ◌≤◌, eqb, length, get_or};
ghost use Rattle.codec.specs.FrameSet.{source};
ghost use Rattle.codec.specs.Request.{llm, level_of, opcode_of, type_of, heading_of, class2, addressed_by, wrong_mac, wrong_offset, by_type};

use crate::frame::{destination_of, is_soam};
use crate::{Addressed, Heading, Request};

// The opcode of a request.
const LLM: u8 = 57;
// That of a reply.
pub const LLR: u8 = 56;
// Its message types. Stays numbers: a reply repeats the octet of its request, whatever it is.
pub const ACTIVATE: u8 = 1;

pub const DEACTIVATE: u8 = 2;

pub const STATE: u8 = 3;
// How many octets a request's PDU has at the least.
const LEAST_PDU: usize = 12;

// The octet at a place from 0, or 0 past the end.
pub fn octet_at(pdu: &[u8], i: usize) -> u8
    ensures { result ≡ get_or pdu.now i 0 }
{
    pdu.get(i).copied().unwrap_or(0)
}

// The level; 0 where there is no octet.
fn level_of(pdu: &[u8]) -> u8
    ensures { (result ≡ level_of pdu.now) × (result < 8) }
{
    octet_at(pdu, 0) / 32
}

// The message type; 0 where the PDU is shorter.
fn type_of(pdu: &[u8]) -> u8
    ensures { result ≡ type_of pdu.now }
{
    octet_at(pdu, 4)
}

// Is its opcode that of a request?
fn is_request(pdu: &[u8]) -> bool
    ensures { result ≡ eqb (opcode_of pdu.now) llm }
{
    octet_at(pdu, 1) == LLM
}

// What is read, once, of a frame that has so many octets of tag. Its source has been read.
pub fn heading_of(taglen: usize, sender: u64, frame: &[u8]) -> Heading
    requires { (14 + taglen ≤ length frame.now) × (sender ≡ source frame.now) }
    ensures { (result ≡ heading_of taglen frame.now) × (result.level < 8) }
{
    let pdu = 14 + taglen;
    let destination = destination_of(frame);
    if is_soam(taglen, frame) {
        return Heading {
            destination,
            source: sender,
            soam: true,
            request: is_request(&frame[pdu..]),
            level: level_of(&frame[pdu..]),
            kind: type_of(&frame[pdu..]),
        };
    }
    Heading {
        destination,
        source: sender,
        soam: false,
        request: false,
        level: 0,
        kind: 0,
    }
}

// The group address of a level.
fn class2_of(level: u8) -> u64
    requires { level < 8 }
    ensures { result ≡ class2 level }
{
    0x0180C2000038 + u64::from(level)
}

// Whom a request with this heading and so many octets of PDU is for, at a port of this address.
pub fn addressed_to(port: u64, h: Heading, n: usize) -> Addressed
    requires { h.level < 8 }
    ensures { result ≡ addressed_by port h.destination h.level h.kind n }
{
    if h.destination == port {
        return Addressed::Unicast;
    }
    if h.destination == class2_of(h.level) && h.kind == STATE && LEAST_PDU <= n {
        return Addressed::Multicast;
    }
    Addressed::Elsewhere
}

// Has a unicast request a Loopback Port MAC unlike its destination?
pub fn wrong_mac(whom: Addressed, to: u64, pdu: &[u8]) -> bool
    requires { 12 ≤ length pdu.now }
    ensures { result ≡ wrong_mac whom to pdu.now }
{
    match whom {
        Addressed::Elsewhere => false,
        Addressed::Unicast => octets::number6(pdu, 6) != to,
        Addressed::Multicast => false,
    }
}

// Version 0 with an offset other than 8, or another version with one below 8?
pub fn wrong_offset(pdu: &[u8]) -> bool
    ensures { result ≡ wrong_offset pdu.now }
{
    let offset = octet_at(pdu, 3);
    let version = octet_at(pdu, 0) % 32;
    if version == 0 {
        offset != 8
    } else {
        offset < 8
    }
}

// What a well-formed request says, by its message type.
pub fn by_type(kind: u8, seconds: u32) -> Request
    ensures { result ≡ by_type kind seconds }
{
    match kind {
        ACTIVATE => Request::Activate(seconds),
        DEACTIVATE => Request::Deactivate,
        STATE => Request::State,
        0 | 4..=255 => Request::Reserved,
    }
}
