// A request for an MP: the reply, and what becomes of its session.
ghost use Rattle.std.specs.Prelude.{◌≡◌, true, false, cond, ◌+◌, ◌≤◌, eqb, length};
ghost use Rattle.codec.specs.FrameSet.{destination, soam, pdu_of};
ghost use Rattle.codec.specs.Request.{request_of};
ghost use Rattle.state.specs.State.{is_allowed};
ghost use Rattle.state.specs.Image.{state_of};
ghost use Rattle.calls.specs.Frame.{answers, request_served};
ghost use Rattle.calls_requests.specs.Arrival.{Known, Served, arrived_in, onward};

use crate::Arrival;
use crate::decision::{change_session, decides};
use crate::pdu::read_behind;
use crate::reply::reply;
use calls::Answer;
use codec::Addressed;
use machine::{key, status_after};
use plan::MIP;
use state::{Image, allows, machine_at, session_at, wide};

// Does the request go on to others, past a MIP?
fn goes_on(a: Arrival, whom: Addressed) -> bool
    ensures { result ≡ onward a whom }
{
    match whom {
        Addressed::Elsewhere => false,
        Addressed::Unicast => false,
        Addressed::Multicast => a.mp == MIP,
    }
}

// The request read and answered, on an allowed flow: the change is written, and the reply says how the machine is then.
fn answers(b: &mut Image, a: Arrival, frame: &[u8], out: &mut [u8], whom: Addressed) -> Answer
    requires known { (Known b.old a frame.now) × (2008 ≤ length out.old) }
    requires allowed { (is_allowed a.flow (state_of b.old) ≡ true)
        × ((26 + a.taglen ≤ length frame.now) × (soam a.taglen frame.now ≡ true)) }
    ensures { Served (answers (state_of b.old) (arrived_in b.old a frame.now) whom
        (request_of whom (destination frame.now) (pdu_of a.taglen frame.now)))
        result b.new out.old out.new }
{
    let h = a.heading;
    let read = read_behind(whom, h, a.taglen, frame);
    let request = read.request;
    let own = key(a.flow as u16, h.source);
    let row = session_at(b, own);
    let m = machine_at(b, row);
    let d = decides(b, a, frame, m, request);
    let change = d.change;
    change_session(b, own, row, change);
    reply(
        out,
        a,
        frame,
        goes_on(a, whom),
        d.code,
        status_after(change, m),
        read.copies,
    )
}

pub fn serve_request(
    image: &mut Image,
    a: Arrival,
    frame: &[u8],
    out: &mut [u8],
    whom: Addressed,
) -> Answer
    requires { (Known image.old a frame.now)
        × ((2008 ≤ length out.old) × (soam a.taglen frame.now ≡ true)) }
    ensures { Served
        (request_served (state_of image.old) (arrived_in image.old a frame.now) whom)
        result image.new out.old out.new }
{
    if allows(image, wide(a.flow)) {
        if frame.len() < 26 + a.taglen {
            return Answer::Dropped;
        }
        return answers(image, a, frame, out, whom);
    }
    if goes_on(a, whom) {
        return Answer::Forwarded;
    }
    Answer::Dropped
}
