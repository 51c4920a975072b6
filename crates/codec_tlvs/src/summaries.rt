// What a TLV list comes to, gathered TLV by TLV.
ghost use Rattle.std.specs.Prelude.{◌≡◌, ◌+◌, ◌<◌, ◌^◌, length, drop};
ghost use Rattle.codec_tlvs.specs.Tlv.{parse};
ghost use Rattle.codec_tlvs.specs.Walk.{timer_of, summary_of, with_timer, count};

use crate::kinds::is_unknown;
use crate::readers::TlvReader;
use crate::words::{TIMER, TIMER_LENGTH};
use crate::{BadList, Summary};

// The seconds in the value of a timer.
fn timer_of(value: &[u8]) -> Result<u32, BadList>
    ensures { result ≡ timer_of value.now }
{
    if value.len() != TIMER_LENGTH {
        return Err(BadList);
    }
    Ok(octets::number4(value, 1))
}

// The summary with a timer more, which has to be the first.
fn with_timer(s: Summary, seconds: u32) -> Result<Summary, BadList>
    ensures { result ≡ with_timer s seconds }
{
    if s.seconds.is_some() {
        return Err(BadList);
    }
    Ok(Summary {
        seconds: Some(seconds),
        ..s
    })
}

// The summary with one TLV more.
fn counted(s: Summary, kind: u8, value: &[u8]) -> Result<Summary, BadList>
    requires { s.unknown + 3 + length value.now < 2 ^ 64 }
    ensures { result ≡ count s kind value.now }
{
    if is_unknown(kind, value) {
        return Ok(Summary {
            unknown: s.unknown + 3 + value.len(),
            ..s
        });
    }
    if kind != TIMER {
        return Ok(s); // End
    }
    with_timer(s, timer_of(value)?)
}

// The summary of the list that starts at a place of the PDU.
pub fn summary_of(pdu: &[u8], from: usize) -> Result<Summary, BadList>
    ensures { result ≡ summary_of (parse (drop from pdu.now)) }
{
    let mut s = Summary {
        seconds: None,
        unknown: 0,
    };
    let mut r = TlvReader::new(pdu, from);
    while let Some(tlv) = r.next()? {
        s = counted(s, tlv.kind, r.value(tlv.start, tlv.len))?;
        r = r.moved(tlv.next);
    }
    Ok(s)
}
