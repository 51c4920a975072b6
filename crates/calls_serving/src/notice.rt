// The first notice that is owed: its frame written, and its session taken out.
ghost use Rattle.std.specs.Prelude.{◌≡◌, ◌+◌, ◌<◌, ◌≤◌, ◌^◌, length, IfSome};
ghost use Rattle.octets.specs.Octets.{over};
ghost use Rattle.state.specs.Image.{state_of};
ghost use Rattle.state.specs.Rows.{flow_of_row};
ghost use Rattle.calls.specs.Notice.{port_of, notice_frame, notice_served};
ghost use Rattle.calls_requests.specs.Arrival.{Served};
ghost use Rattle.calls_serving.specs.Preconditions.{ImageKnown, NoticeKnown};

use calls::Answer;
use codec_replies::{put_bare, put_head};
use machine::Session;
use octets::octets4;
use plan::Port;
use state::{FLOW_PORT_AT, Image, numbered_at, owed_at, port_numbered, read_session, wide};
use state_store::remove_session;

// The port of the flow of a row; of no row, 0.
fn port_in(b: &[u8], row: Option<usize>) -> u8
    requires { IfSome row (λ at. at + 32 ≤ length b.now) }
    ensures { result ≡ (flow_of_row row b.now).port }
{
    row.map_or(0, |at| b[at + FLOW_PORT_AT])
}

// The port of a session's flow.
fn port_of(b: &Image, x: Session) -> Port
    requires { ImageKnown b.now }
    ensures { result ≡ port_of (state_of b.now) x }
{
    let row = numbered_at(b, x.flow as u32);
    port_numbered(b, port_in(b, row) as u32)
}

// A session's notice at the front of out; answers how many octets that is.
fn put_notice(out: &mut [u8], port: Port, x: Session) -> usize
    requires { (x.level < 8) × ((x.taglen ≤ 4) × ((x.tag < 2 ^ 32) × (2008 ≤ length out.old))) }
    ensures { (result ≡ length (notice_frame port x)) × (out.new ≡ over (notice_frame port x) out.old) }
{
    let tag = octets4(x.tag as u32);
    let start = 4 - wide(x.taglen);
    let n = put_head(&mut out[..], x.source, port.address, &tag[start..]);
    n + put_bare(&mut out[n..], x.level, 0, 2, x.notice, port.address)
}

pub fn take_notice(b: &mut Image, out: &mut [u8]) -> Answer
    requires { NoticeKnown b.old out.old }
    ensures { Served (notice_served (state_of b.old)) result b.new out.old out.new }
{
    let row = owed_at(b);
    let at = row.unwrap(); // as one is owed
    let x = read_session(b, at);
    let port = port_of(b, x);
    let n = put_notice(out, port, x);
    remove_session(b, row);
    Answer::Noticed(port.number, x.side, n as u32)
}
