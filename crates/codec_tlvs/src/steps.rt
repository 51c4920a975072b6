// What stands at a place of a TLV list.
ghost use Rattle.std.specs.Prelude.{◌≡◌, ◌+◌, ◌≤◌, length};
ghost use Rattle.codec_tlvs.specs.Part.{Part};
ghost use Rattle.codec_tlvs.specs.Walk.{step_at};

use crate::{BadList, Tlv};

// The TLV at a place, which may lie past the end of the PDU, or none at the End.
pub fn tlv_at(pdu: &[u8], at: usize) -> Result<Option<Tlv>, BadList>
    ensures { result ≡ step_at pdu.now at }
{
    if pdu.len() <= at {
        return Err(BadList); // no End
    }
    let kind = pdu[at];
    if kind == 0 {
        return Ok(None);
    }
    let left = pdu.len() - at;
    if left < 3 {
        return Err(BadList); // a length cut short
    }
    let len = octets::number2(pdu, at + 1);
    if left - 3 < len {
        return Err(BadList); // a value past the PDU
    }
    let start = at + 3;
    Ok(Some(Tlv {
        kind,
        start,
        len,
        next: start + len,
    }))
}

// A part of the PDU, where it lies.
pub fn value_at<'a>(pdu: &'a [u8], start: usize, len: usize) -> &'a [u8]
    requires { start + len ≤ length pdu.now }
    ensures { Part pdu.entry start len result }
{
    &pdu[start..start + len]
}
