// A record added to those held, in its place.
ghost use Rattle.std.specs.Prelude.{◌≡◌, true};
ghost use Rattle.plan.specs.Plan.{so_far};
ghost use Rattle.plan.specs.Line.{port_line, flow_line, mp_line};
ghost use Rattle.plan.specs.PlanText.{port_reason, flow_reason, mp_reason, added};
ghost use Rattle.plan.specs.Records.{plan_of, by_value};
ghost use Rattle.plan_reader.specs.ReadPlan.{said_reason, said_added};

use plan::{Flow, LEVELS, Port, Records};
use plan_lines::Said;
use plan_records::{flow_put, mps_put, port_put};

#[inline(never)]
fn with_port(r: &mut Records, number: u32, kind: u8, address: u64)
    requires { (r.old ≡ by_value (plan_of r.old)) × (so_far (plan_of r.old) ≡ true) × (port_reason (plan_of r.old) number address ≡ 0) }
    ensures { r.new ≡ by_value (added (port_line number kind address) (plan_of r.old)) }
{
    let port = Port {
        number: number as u8,
        kind,
        address,
    };
    port_put(&mut r.ports, port);
}

#[inline(never)]
fn with_flow(r: &mut Records, number: u32, port: u32, kind: u8, vid: u32)
    requires { (r.old ≡ by_value (plan_of r.old)) × (so_far (plan_of r.old) ≡ true) × (flow_reason (plan_of r.old) number port kind vid ≡ 0) }
    ensures { r.new ≡ by_value (added (flow_line number port kind vid) (plan_of r.old)) }
{
    let flow = Flow {
        number: number as u8,
        port: port as u8,
        kind,
        vid: vid as u16,
        mps: [0; LEVELS],
    };
    flow_put(&mut r.flows, flow);
}

#[inline(never)]
fn with_mp(r: &mut Records, flow: u32, kind: u8, level: u32)
    requires { (r.old ≡ by_value (plan_of r.old)) × (mp_reason (plan_of r.old) flow level ≡ 0) }
    ensures { r.new ≡ by_value (added (mp_line flow kind level) (plan_of r.old)) }
{
    mps_put(&mut r.flows, flow, kind, level);
}

pub fn with_line(r: &mut Records, line: Said)
    requires { (r.old ≡ by_value (plan_of r.old)) × (so_far (plan_of r.old) ≡ true) × (said_reason (plan_of r.old) line ≡ 0) }
    ensures { r.new ≡ by_value (said_added line (plan_of r.old)) }
{
    match line {
        Said::OfPort(number, kind, address) => with_port(r, number, kind, address),
        Said::OfFlow(number, port, kind, vid) => with_flow(r, number, port, kind, vid),
        Said::OfMp(flow, kind, level) => with_mp(r, flow, kind, level),
    }
}
