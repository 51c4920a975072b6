// A request read: malformed, reserved, or what it asks for.
ghost use Rattle.std.specs.Prelude.{◌≡◌, ◌+◌, ◌≤◌, length};
ghost use Rattle.codec.specs.Request.{offset_of, type_of, read_of};

use crate::pdu::{ACTIVATE, by_type, octet_at, wrong_mac, wrong_offset};
use crate::{Addressed, Read, Request};
use codec_tlvs::summary_of;

// Where the first TLV stands.
pub fn first_tlv(pdu: &[u8]) -> usize
    ensures { (result ≡ 4 + offset_of pdu.now) × (result ≤ 259) }
{
    4 + usize::from(octet_at(pdu, 3))
}

// A request of which its reply copies nothing.
fn bare(request: Request) -> Read
    ensures { result ≡ record { request = request; copies = 0 } }
{
    Read { request, copies: 0 }
}

// Reads a request that was sent to this destination and has this message type.
pub fn read_request(whom: Addressed, to: u64, kind: u8, pdu: &[u8]) -> Read
    requires { (12 ≤ length pdu.now) × (kind ≡ type_of pdu.now) }
    ensures { result ≡ read_of whom to pdu.now }
{
    if wrong_mac(whom, to, pdu) || wrong_offset(pdu) {
        return bare(Request::Malformed);
    }
    let Ok(s) = summary_of(pdu, first_tlv(pdu)) else {
        return bare(Request::Malformed); // a bad list
    };
    if kind == ACTIVATE && s.seconds.is_none() {
        return bare(Request::Malformed);
    }
    let seconds = s.seconds.unwrap_or(0); // an Activate has some, and of others nobody asks
    Read {
        request: by_type(kind, seconds),
        copies: s.unknown,
    }
}
