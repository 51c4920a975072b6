// Which TLVs are unknown.
ghost use Rattle.std.specs.Prelude.{◌≡◌};
ghost use Rattle.codec_tlvs.specs.Tlv.{is_unknown};
ghost use Rattle.codec_tlvs.specs.Walk.{tlv_of};

use crate::words::{TIMER, TIMER_SUBTYPE};

pub fn is_unknown(kind: u8, value: &[u8]) -> bool
    ensures { result ≡ is_unknown (tlv_of kind value.now) }
{
    match kind {
        0 => false, // End
        TIMER => match value {
            [] => false, // no subtype
            [TIMER_SUBTYPE, ..] => false, // the timer
            [_, ..] => true,
        },
        _ => true,
    }
}
