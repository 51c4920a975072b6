// An image made of a plan.
ghost use Rattle.std.specs.Prelude.{◌≡◌, ◌+◌, ◌*◌, ◌≤◌, true, ℕ, List, length};
ghost use Rattle.octets.specs.Octets.{splice};
ghost use Rattle.plan.specs.Plan.{keeps_rules};
ghost use Rattle.plan.specs.Records.{held, held_flows, plan_of};
ghost use Rattle.state.specs.State.{made};
ghost use Rattle.state.specs.Image.{port_row, flow_row, rows, image};
ghost use Rattle.state_maker.specs.Places.{places_put};

use octets::{clear, put_at, put_low4};
use plan::{Flow, Port, Records};
use state::{
    CLOCK_AT, FLOW_WIDTH, FLOWS_AT, IMAGE_LENGTH, Image, MOST_FLOWS, PLACES_BEFORE, PORT_WIDTH,
    PORTS_AT,
};

fn port_octets(p: &Port) -> [u8; PORT_WIDTH]
    ensures { result ≡ port_row p.now }
{
    let mut w = [0; PORT_WIDTH];
    w[..6].copy_from_slice(&p.address.to_le_bytes()[..6]);
    w[6] = p.kind;
    w[7] = p.number;
    w
}

fn flow_octets(f: &Flow) -> [u8; FLOW_WIDTH]
    ensures { result ≡ flow_row f.now }
{
    let vid = f.vid.to_le_bytes();
    let m = f.mps;
    [
        0, f.number, 0, 0, vid[0], vid[1], f.kind, f.port, m[0], m[1], m[2], m[3], m[4], m[5],
        m[6], m[7], 0, 0, 0, 0, 0, 0, 0, 0, 0, 0, 0, 0, 0, 0, 0, 0,
    ]
}

// What a port and a flow have in common: a row of the image, and a number, 0 where there is none.
trait Row<const WIDTH: usize>: Copy {
    ghost number_of: { Self → ℕ };

    ghost row_of: { Self → List ℕ };

    fn number(self) -> u8
        ensures { result ≡ number_of self };

    fn octets(self) -> [u8; WIDTH]
        ensures { result ≡ row_of self };
}

impl Row<PORT_WIDTH> for Port {
    ghost number_of = { λ p. p.number };

    ghost row_of = { port_row };

    fn number(self) -> u8 {
        self.number
    }

    fn octets(self) -> [u8; PORT_WIDTH] {
        port_octets(&self)
    }
}

impl Row<FLOW_WIDTH> for Flow {
    ghost number_of = { λ f. f.number };

    ghost row_of = { flow_row };

    fn number(self) -> u8 {
        self.number
    }

    fn octets(self) -> [u8; FLOW_WIDTH] {
        flow_octets(&self)
    }
}

// The rows up to the first with no number, put in one behind another from a place on.
fn put_rows<const WIDTH: usize, R: Row<WIDTH>>(b: &mut [u8], at: usize, list: &[R])
    requires { (length b.old ≡ 4096) × (at + length list.now * WIDTH ≤ 4096) }
    ensures { b.new ≡ splice at (rows R.row_of (held R.number_of list.now)) b.old }
{
    for (i, r) in list.iter().enumerate() {
        if r.number() == 0 {
            return;
        }
        let w = r.octets();
        put_at(b, at + i * WIDTH, &w);
    }
}

fn put_places(b: &mut Image, flows: &[Flow; MOST_FLOWS])
    ensures { b.new ≡ places_put 1 (held_flows flows.now) b.old }
{
    for (i, f) in flows.iter().enumerate() {
        if f.number == 0 {
            return;
        }
        b[PLACES_BEFORE + f.number as usize] = (i + 1) as u8;
    }
}

// The image of a unit with this plan: no flow allowed, no session, the clock at the reading given.
#[inline(never)]
pub fn make_image(b: &mut Image, r: &Records, clock: u32)
    requires { keeps_rules (plan_of r.now) ≡ true }
    ensures { b.new ≡ image (made (plan_of r.now) clock) }
{
    clear(b, 0, IMAGE_LENGTH);
    put_low4(b, CLOCK_AT, clock);
    put_rows(b, PORTS_AT, &r.ports);
    put_rows(b, FLOWS_AT, &r.flows);
    put_places(b, &r.flows);
}
