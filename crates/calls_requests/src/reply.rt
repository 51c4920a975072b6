// A reply to a request: the answer, and its octets at the front of the output.
ghost use Rattle.std.specs.Prelude.{◌≡◌, cond, ◌+◌, ◌<◌, ◌≤◌, length};
ghost use Rattle.codec.specs.FrameSet.{pdu_of};
ghost use Rattle.codec.specs.Request.{copied};
ghost use Rattle.codec_replies.specs.Reply.{reply_frame, reply_pdu, tag_of};
ghost use Rattle.machine.specs.Machine.{code_octet};
ghost use Rattle.state.specs.State.{State};
ghost use Rattle.state.specs.Image.{image};
ghost use Rattle.calls.specs.declared.Answer.TheVariants.{Replied, RepliedForwarded};
ghost use Rattle.calls.specs.Answer.{sends};
ghost use Rattle.calls_requests.specs.Arrival.{Served};

use crate::Arrival;
use calls::Answer;
use codec::Status;
use codec_replies::{ReplyFields, put_reply_frame};
use machine::Code;

// The answer of a reply of so many octets; `on` is whether the request goes on to others.
fn answer_of(on: bool, n: u32) -> Answer
    ensures { result ≡ cond on RepliedForwarded Replied n }
{
    if on {
        return Answer::RepliedForwarded(n);
    }
    Answer::Replied(n)
}

// The reply with this code and status that copies so many octets, for any state that the call leaves.
pub fn reply(
    out: &mut [u8],
    a: Arrival,
    frame: &[u8],
    on: bool,
    code: Code,
    status: Status,
    copies: usize,
) -> Answer
    requires taglen_bound { (a.taglen ≤ 4) × ((14 + a.taglen ≤ length frame.now) × (a.heading.level < 8)) }
    requires in_bounds { (2008 ≤ length out.old) × ((35 + a.taglen + copies ≤ 2008)
        × (copies ≡ length (copied copies (pdu_of a.taglen frame.now)))) }
    ensures { (s : State) → Served
        (sends (cond on RepliedForwarded Replied) s
        (reply_frame a.heading.source a.replier (tag_of a.taglen frame.now)
        (reply_pdu a.heading.level a.heading.kind (code_octet code) a.port.address status
        (copied copies (pdu_of a.taglen frame.now)))))
        result (image s) out.old out.new }
{
    let h = a.heading;
    let port = a.port;
    let fields = ReplyFields {
        level: h.level,
        kind: h.kind,
        code: code.octet(),
        port: port.address,
        status,
    };
    let n = put_reply_frame(out, frame, a.taglen, h.source, a.replier, fields, copies);
    answer_of(on, n as u32)
}
