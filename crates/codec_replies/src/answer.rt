// A reply written: its PDU into the rest of the output, and the whole frame.
ghost use Rattle.std.specs.Prelude.{◌≡◌, ◌+◌, ◌<◌, ◌≤◌, length};
ghost use Rattle.octets.specs.Octets.{over};
ghost use Rattle.codec.specs.FrameSet.{pdu_of};
ghost use Rattle.codec.specs.Request.{copied};
ghost use Rattle.codec_replies.specs.Reply.{carries_timer, timer_part, reply_of, reply_frame, tag_of};

use crate::ReplyFields;
use crate::reply::{flags_of, put_head, put_header, put_timer};
use codec::{ACTIVATE, STATE, first_tlv};
use codec_tlvs::copy_unknown;

// The code of the reply to a malformed request.
const MALFORMED: u8 = 1;

// Does a reply of this type with this code carry a timer?
fn carries_timer(kind: u8, code: u8) -> bool
    ensures { result ≡ carries_timer kind code }
{
    code != MALFORMED && (kind == ACTIVATE || kind == STATE)
}

// The timer TLV where it is carried, at the front of out; answers how many octets that is.
fn put_timer_part(out: &mut [u8], kind: u8, code: u8, seconds: u32) -> usize
    requires { 8 ≤ length out.old }
    ensures { (result ≡ length (timer_part kind code seconds))
        × ((result ≤ 8) × (out.new ≡ over (timer_part kind code seconds) out.old)) }
{
    if !carries_timer(kind, code) {
        return 0;
    }
    put_timer(out, seconds);
    8
}

// The unknown TLVs of a request, of so many octets, at the front of out; answers how many octets that is.
fn put_copies(out: &mut [u8], count: usize, request: &[u8]) -> usize
    requires { length (copied count request.now) ≤ length out.old }
    ensures { (result ≡ length (copied count request.now))
        × (out.new ≡ over (copied count request.now) out.old) }
{
    if count == 0 {
        return 0;
    }
    copy_unknown(out, request, first_tlv(request))
}

// A reply's PDU at the front of out, the rest of the output behind addresses and taglen; answers how many octets that is.
fn put_reply(out: &mut [u8], r: ReplyFields, count: usize, request: &[u8]) -> usize
    requires { (r.level < 8) × ((21 + count ≤ length out.old) × (count ≡ length (copied count request.now))) }
    ensures { (result ≡ length (reply_of r count request.now))
        × (out.new ≡ over (reply_of r count request.now) out.old) }
{
    let flagged = flags_of(r.kind, r.status, count != 0);
    put_header(&mut out[..], r.level, flagged, r.kind, r.code, r.port);
    let n = 12 + put_timer_part(&mut out[12..], r.kind, r.code, r.status.seconds);
    let m = n + put_copies(&mut out[n..], count, request);
    octets::copy_into(&mut out[m..], &[0u8]);
    m + 1
}

// A whole reply to `frame`, whose set has so many octets of tag, with these addresses; answers its length.
pub fn put_reply_frame(
    out: &mut [u8],
    frame: &[u8],
    taglen: usize,
    to: u64,
    from: u64,
    r: ReplyFields,
    count: usize,
) -> usize
    requires taglen_bound { (taglen ≤ 8) × (14 + taglen ≤ length frame.now) }
    requires level_bound { (r.level < 8) × ((35 + taglen + count ≤ length out.old) × (count ≡ length (copied count (pdu_of taglen frame.now)))) }
    ensures { (result ≡ 14 + taglen + length (reply_of r count (pdu_of taglen frame.now)))
        × (out.new ≡
        over (reply_frame to from (tag_of taglen frame.now)
        (reply_of r count (pdu_of taglen frame.now))) out.old) }
{
    let end = 12 + taglen;
    let n = put_head(&mut out[..], to, from, &frame[12..end]);
    let start = 14 + taglen;
    n + put_reply(&mut out[n..], r, count, &frame[start..])
}
