// "Replies", octet by octet, and the loop of a data frame.
ghost use Rattle.std.specs.Prelude.{◌≡◌, [], ◌∷◌, ◌++◌, ◌+◌, ◌<◌, ◌≤◌, length};
ghost use Rattle.octets.specs.Octets.{octets, over};
ghost use Rattle.codec.specs.FrameSet.{destination};
ghost use Rattle.codec_replies.specs.Reply.{active_flags, flags_by, header, timer_tlv, looped};

use codec::{ACTIVATE, EXTERNAL, LLR, OAM_TYPE, STATE, Status, is_group};
use codec_tlvs::{TIMER, TIMER_LENGTH, TIMER_SUBTYPE};

// The offset of the first TLV in a reply.
const OFFSET: u8 = 8;
// Flags: bit 1 alone, bits 1 and 2, and bit 3.
const ACTIVE: u8 = 1;

const ACTIVE_EXTERNAL: u8 = 3;

const COPIED: u8 = 4;

// Three runs of octets, one after another, at the front of out; answers how many octets that is.
fn put_three(out: &mut [u8], a: &[u8], b: &[u8], c: &[u8]) -> usize
    requires { length a.now + length b.now + length c.now ≤ length out.old }
    ensures { (result ≡ length a.now + length b.now + length c.now)
        × (out.new ≡ over (a.now ++ b.now ++ c.now) out.old) }
{
    let m = a.len();
    let n = m + b.len();
    octets::copy_into(&mut out[..], a);
    octets::copy_into(&mut out[m..], b);
    octets::copy_into(&mut out[n..], c);
    n + c.len()
}

// Addresses, tag octets and the SOAM type, at the front of out; answers how many octets that is.
pub fn put_head(out: &mut [u8], requester: u64, from: u64, tag: &[u8]) -> usize
    requires { (14 + length tag.now ≤ length out.old) × (length tag.now ≤ 8) }
    ensures { (result ≡ 14 + length tag.now)
        × (out.new ≡
        over (octets 6 requester ++ octets 6 from ++ tag.now ++ octets 2 0x8902) out.old) }
{
    let n = put_three(
        &mut out[..],
        &octets::octets6(requester),
        &octets::octets6(from),
        tag,
    );
    octets::copy_into(&mut out[n..], &octets::octets2(OAM_TYPE));
    n + 2
}

// The frame turned round, straight into out; answers its length. A group destination, which has been read, gives way to the port's
// address.
pub fn put_looped(out: &mut [u8], port: u64, to: u64, frame: &[u8]) -> usize
    requires in_bounds { (14 ≤ length frame.now) × (length frame.now ≤ length out.old) }
    requires to_value { to ≡ destination frame.now }
    ensures { (result ≡ length frame.now)
        × (out.new ≡ over (looped port frame.now) out.old) }
{
    if is_group(to) {
        return put_three(out, &frame[6..12], &octets::octets6(port), &frame[12..]);
    }
    put_three(out, &frame[6..12], &frame[0..6], &frame[12..])
}

// Bits 1 and 2 of the flags.
fn active_flags(kind: u8, status: Status) -> u8
    ensures { (result ≡ active_flags kind status) × (result < 4) }
{
    match status.side {
        Some(side) if ACTIVATE <= kind && kind <= STATE => {
            if side == EXTERNAL {
                ACTIVE_EXTERNAL
            } else {
                ACTIVE
            }
        }
        _ => 0,
    }
}

// The flags octet of a reply: `copied` is whether an unknown TLV was copied.
pub fn flags_of(kind: u8, status: Status, copied: bool) -> u8
    ensures { result ≡ flags_by kind status copied }
{
    let flags = active_flags(kind, status);
    if copied { flags + COPIED } else { flags }
}

// The header's 12 octets, at the front of out.
pub fn put_header(out: &mut [u8], level: u8, flagged: u8, kind: u8, code: u8, port: u64)
    requires { (12 ≤ length out.old) × (level < 8) }
    ensures { out.new ≡ over (header level flagged kind code port) out.old }
{
    let m = octets::octets6(port);
    let h = [
        level * 32,
        LLR,
        flagged,
        OFFSET,
        kind,
        code,
        m[0],
        m[1],
        m[2],
        m[3],
        m[4],
        m[5],
    ];
    octets::copy_into(out, &h);
}

// The PDU of a reply without a TLV, header and End, at the front of out; answers how many octets that is.
pub fn put_bare(out: &mut [u8], level: u8, flagged: u8, kind: u8, code: u8, port: u64) -> usize
    requires { (13 ≤ length out.old) × (level < 8) }
    ensures { (result ≡ 13)
        × (out.new ≡ over (header level flagged kind code port ++ (0 ∷ [])) out.old) }
{
    put_header(&mut out[..], level, flagged, kind, code, port);
    octets::copy_into(&mut out[12..], &[0u8]);
    13
}

// The timer TLV's 8 octets, at the front of out.
pub fn put_timer(out: &mut [u8], seconds: u32)
    requires { 8 ≤ length out.old }
    ensures { out.new ≡ over (timer_tlv seconds) out.old }
{
    let s = octets::octets4(seconds);
    let t = [
        TIMER,
        0,
        TIMER_LENGTH as u8,
        TIMER_SUBTYPE,
        s[0],
        s[1],
        s[2],
        s[3],
    ];
    octets::copy_into(out, &t);
}
