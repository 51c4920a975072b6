// A reader that walks the octets of its caller: it holds the PDU and its place there. Each of its functions takes it apart and calls
// one of a slice and a place.
// Stays no iterator: `next`, `value` and `moved` keep their names and promises, by which docs/CLAIMS.md has TLV-13 and FORM-7.
ghost use Rattle.std.specs.Prelude.{◌≡◌, ◌+◌, ◌≤◌, length};
ghost use Rattle.codec_tlvs.specs.Part.{Part};
ghost use Rattle.codec_tlvs.specs.Walk.{step_at};

use crate::steps::{tlv_at, value_at};
use crate::{BadList, Tlv};

#[derive(Clone, Copy)]
pub struct TlvReader<'a> {
    pub pdu: &'a [u8],
    pub at: usize,
}

impl<'a> TlvReader<'a> {
    // The reader of a PDU at a place, which may lie past its end.
    pub fn new(pdu: &'a [u8], at: usize) -> TlvReader<'a>
        ensures { (result.pdu ≡ pdu.entry) × (result.at ≡ at) }
    {
        TlvReader { pdu, at }
    }

    // The TLV at its place, or none at the End.
    pub fn next(self) -> Result<Option<Tlv>, BadList>
        ensures { result ≡ step_at self.entry.pdu.now self.entry.at }
    {
        tlv_at(self.pdu, self.at)
    }

    // A value, as the part of the PDU that starts there and has that length.
    pub fn value(self, start: usize, len: usize) -> &'a [u8]
        requires { start + len ≤ length self.pdu.now }
        ensures { Part self.entry.pdu start len result }
    {
        value_at(self.pdu, start, len)
    }

    // The reader at another place.
    pub fn moved(self, at: usize) -> TlvReader<'a>
        ensures { (result.pdu ≡ self.entry.pdu) × (result.at ≡ at) }
    {
        TlvReader { pdu: self.pdu, at }
    }
}
