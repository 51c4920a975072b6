// The machine of a request: the session that an Activate would open, what it decides, and the change written.
ghost use Rattle.std.specs.Prelude.{◌≡◌, true, cond, ◌+◌, ◌<◌, ◌≤◌, eqb, length, IfOk};
ghost use Rattle.codec.specs.FrameSet.{soam};
ghost use Rattle.machine.specs.declared.Session.{Session};
ghost use Rattle.machine.specs.declared.Machine.TheVariants.{Inactive, Active};
ghost use Rattle.machine.specs.Table.{admit};
ghost use Rattle.machine.specs.Machine.{numbered, after};
ghost use Rattle.plan.specs.declared.Flow.{Flow};
ghost use Rattle.state.specs.State.{is_allowed, full_for};
ghost use Rattle.state.specs.Image.{image, state_of, ok_image};
ghost use Rattle.state.specs.Rows.{row_found, session_at};
ghost use Rattle.calls.specs.Frame.{own, changed};
ghost use Rattle.calls_requests.specs.Arrival.{Known, Placed, arrived_in, session_of, asked_of, decision};

use crate::pdu::tag_of;
use crate::{Arrival, Asked};
use codec::Request;
use machine::{
    ADMIT, Change, Code, Decided, Machine, RQST_ACTIVATE, RQST_DEACTIVATE, RQST_STATE, Session,
    action, condition_of, decide,
};
use state::{Image, full_for};
use state_store::{put_session, remove_session};

// The session that an Activate would open.
fn new_session(a: Arrival, frame: &[u8]) -> Session
    requires { (a.taglen ≤ 4) × (14 + a.taglen ≤ length frame.now) }
    ensures { result ≡ session_of a frame.now }
{
    let h = a.heading;
    Session {
        flow: a.flow as u16,
        source: h.source,
        level: h.level,
        side: a.side,
        taglen: a.taglen as u8,
        tag: tag_of(a.taglen, frame),
        left: 0,
        notice: 0,
    }
}

// What a request asks of its machine; or the code of its reply, where no machine is asked.
fn asked_of(request: Request) -> Result<Asked, Code>
    ensures { (result ≡ asked_of request) × IfOk result (λ q. q.event < 3) }
{
    match request {
        Request::Malformed => Err(Code::MalformedRequest),
        Request::Reserved => Err(Code::UnknownMessageType),
        Request::Activate(seconds) => Ok(Asked {
            event: RQST_ACTIVATE,
            seconds,
        }),
        Request::Deactivate => Ok(Asked {
            event: RQST_DEACTIVATE,
            seconds: 0,
        }),
        Request::State => Ok(Asked {
            event: RQST_STATE,
            seconds: 0,
        }),
    }
}

// For an action that admits: is the unit full for one more session? 0, or the code of the reply. For any other: 0.
fn full_at(b: &Image, action: u8) -> u8
    ensures { (f : Flow) → result ≡ cond (eqb action admit) (full_for f (state_of b.now)) 0 }
{
    if action == ADMIT {
        return full_for(b);
    }
    0
}

// What becomes of a request on an allowed flow, and with which code.
pub fn decides(b: &Image, a: Arrival, frame: &[u8], m: Machine, request: Request) -> Decided
    requires known { Known b.now a frame.now }
    requires allowed { (is_allowed a.flow (state_of b.now) ≡ true)
        × ((m ≡ own (state_of b.now) (arrived_in b.now a frame.now)) × (soam a.taglen frame.now ≡ true)) }
    ensures { numbered result ≡ decision (state_of b.now) (arrived_in b.now a frame.now) request }
{
    let asked = match asked_of(request) {
        Ok(asked) => asked,
        Err(code) => {
            return Decided {
                code,
                change: Change::Same,
            };
        }
    };
    let act = action(condition_of(true, m), asked.event);
    let new = new_session(a, frame);
    decide(act, full_at(b, act), asked.seconds, new, m)
}

// Writes the change of the session of a key, which has this row, if it has one yet.
pub fn change_session(b: &mut Image, key: u64, row: Option<usize>, change: Change)
    requires valid { (ok_image b.old ≡ true) × (row ≡ row_found (session_at key b.old)) }
    requires placed { (x : Session) → after change Inactive ≡ Active x → Placed b.old row x }
    ensures { b.new ≡ image (changed key change (state_of b.old)) }
{
    match change {
        Change::Same => {}
        Change::Opened(x) | Change::Restarted(x) => put_session(b, row, x),
        Change::Closed => remove_session(b, row),
    }
}
