// The copy of a list's unknown TLVs.
ghost use Rattle.std.specs.Prelude.{◌≡◌, ◌+◌, ◌≤◌, length, drop};
ghost use Rattle.octets.specs.Octets.{over, splice};
ghost use Rattle.codec_tlvs.specs.Tlv.{parse, unknowns, tlv_list};
ghost use Rattle.codec_tlvs.specs.Walk.{kept};

use crate::kinds::is_unknown;
use crate::readers::TlvReader;

// Copies a TLV to a place of out if it is unknown, and answers the place behind the copy.
fn copy_one(out: &mut [u8], n: usize, kind: u8, value: &[u8]) -> usize
    requires { n + length (kept kind value.now) ≤ length out.old }
    ensures { (result ≡ n + length (kept kind value.now))
        × (out.new ≡ splice n (kept kind value.now) out.old) }
{
    if !is_unknown(kind, value) {
        return n;
    }
    let size = octets::octets2(value.len());
    let head = [kind, size[0], size[1]];
    octets::put_at(&mut out[..], n, &head);
    octets::put_at(&mut out[..], n + 3, value);
    n + 3 + value.len()
}

// Copies the unknown TLVs of the list that starts at a place of the PDU, in order, to the front of out, and answers their length.
pub fn copy_unknown(out: &mut [u8], pdu: &[u8], from: usize) -> usize
    requires { length (tlv_list (unknowns (parse (drop from pdu.now)).tlvs)) ≤ length out.old }
    ensures { (result ≡ length (tlv_list (unknowns (parse (drop from pdu.now)).tlvs)))
        × (out.new ≡ over (tlv_list (unknowns (parse (drop from pdu.now)).tlvs)) out.old) }
{
    let mut r = TlvReader::new(pdu, from);
    let mut n = 0;
    while let Ok(Some(tlv)) = r.next() {
        n = copy_one(&mut out[..], n, tlv.kind, r.value(tlv.start, tlv.len));
        r = r.moved(tlv.next);
    }
    n
}
