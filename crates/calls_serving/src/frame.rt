// A frame call that is not refused: its set, its flow, and whether it is for an MP.
ghost use Rattle.std.specs.Prelude.{◌≡◌, List, ℕ, ◌+◌, ◌<◌, ◌≤◌, length};
ghost use Rattle.plan.specs.Plan.{port_numbered};
ghost use Rattle.state.specs.Image.{state_of};
ghost use Rattle.calls.specs.Frame.{for_mp, by_whom, frame_served};
ghost use Rattle.calls_requests.specs.Arrival.{Known, Served, arrived_in};
ghost use Rattle.calls_serving.specs.Preconditions.{Fair};

use crate::data::serve_data;
use calls::Answer;
use calls_requests::{Arrival, serve_request};
use codec::{Addressed, Place, addressed_to, heading_of, set_of, source_of};
use plan::{Port, faces};
use state::{Image, flow_at, mp_of, number_of};

// Whom a frame is for, by what was read of it: an MP of its flow that faces its side, or nobody here.
fn for_mp(a: Arrival, frame: &[u8]) -> Addressed
    requires { (14 + a.taglen ≤ length frame.now) × (a.heading.level < 8) }
    ensures { (b : List ℕ) → Known b a frame.now → result ≡ for_mp (arrived_in b a frame.now) }
{
    let h = a.heading;
    if h.request {
        if faces(a.mp, a.side) {
            let port = a.port;
            return addressed_to(port.address, h, frame.len() - (14 + a.taglen));
        }
    }
    Addressed::Elsewhere
}

// A frame of a flow.
fn serve_arrival(image: &mut Image, a: Arrival, frame: &[u8], out: &mut [u8]) -> Answer
    requires { (Known image.old a frame.now) × (2008 ≤ length out.old) }
    ensures { Served (by_whom (state_of image.old) (arrived_in image.old a frame.now)
        (for_mp (arrived_in image.old a frame.now)))
        result image.new out.old out.new }
{
    let whom = for_mp(a, frame);
    match whom {
        Addressed::Elsewhere => serve_data(image, a, frame, out),
        Addressed::Unicast | Addressed::Multicast => serve_request(image, a, frame, out, whom),
    }
}

// The port is the one that the frame arrived at.
pub fn serve_frame(image: &mut Image, port: Port, side: u8, frame: &[u8], out: &mut [u8]) -> Answer
    requires { Fair image.old side frame.now out.old }
    ensures { (n : ℕ) → port ≡ port_numbered n (state_of image.old).plan
        → Served (frame_served (state_of image.old) n side frame.now)
        result image.new out.old out.new }
{
    let sender = source_of(frame);
    let Some(Place { set, taglen }) = set_of(port.kind, sender, frame) else {
        return Answer::Forwarded; // in no set
    };
    let row = flow_at(image, port.number, set);
    let Some(flow) = number_of(image, row) else {
        return Answer::Forwarded; // in no flow
    };
    let heading = heading_of(taglen, sender, frame);
    let mp = mp_of(image, row, heading.level);
    serve_arrival(
        image,
        Arrival {
            arrival: port.number,
            port,
            replier: port.address,
            looper: port.address,
            side,
            flow,
            mp,
            taglen,
            heading,
        },
        frame,
        out,
    )
}
