// A data frame: forwarded, dropped, or turned round straight into the output. It changes no octet of the image.
ghost use Rattle.std.specs.Prelude.{◌≡◌, ◌≤◌, length};
ghost use Rattle.machine.specs.Table.{action_of};
ghost use Rattle.machine.specs.Machine.{condition_of, data_event};
ghost use Rattle.state.specs.State.{is_allowed};
ghost use Rattle.state.specs.Image.{state_of};
ghost use Rattle.calls.specs.Frame.{data_served};
ghost use Rattle.calls_requests.specs.Arrival.{Known, Served, arrived_in};

use calls::Answer;
use calls_requests::Arrival;
use codec_replies::put_looped;
use machine::{Fate, Machine, action, condition_of, data_event, fate_of, key};
use state::{Image, allows, machine_of, wide};

// What the table says of a data frame from a side at a machine of a flow.
fn data_action(image: &Image, flow: u8, side: u8, m: Machine) -> u8
    requires { (1 ≤ flow) × (flow ≤ 32) }
    ensures { result ≡ action_of (condition_of (is_allowed flow (state_of image.now)) m) (data_event side) }
{
    action(condition_of(allows(image, wide(flow)), m), data_event(side))
}

pub fn serve_data(image: &Image, a: Arrival, frame: &[u8], out: &mut [u8]) -> Answer
    requires { (Known image.now a frame.now) × (2008 ≤ length out.old) }
    ensures { Served (data_served (state_of image.now) (arrived_in image.now a frame.now))
        result image.now out.old out.new }
{
    let h = a.heading;
    let m = machine_of(image, key(a.flow as u16, h.source));
    let act = data_action(image, a.flow, a.side, m);
    match fate_of(act, h.soam, h.level, a.side, m) {
        Fate::Forward => Answer::Forwarded,
        Fate::Drop => Answer::Dropped,
        Fate::Loop => Answer::Looped(put_looped(out, a.looper, h.destination, frame) as u32),
    }
}
