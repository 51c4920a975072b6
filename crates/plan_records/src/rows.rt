// Rows put in their place, and rows changed.
#![tactic(auto, unfolding(plan::specs::PlanText::with_mp))]

ghost use Rattle.std.specs.Prelude.{◌≡◌, map, ◌<◌};
ghost use Rattle.plan.specs.Plan.{flow_key};
ghost use Rattle.plan.specs.PlanText.{with_mp};
ghost use Rattle.plan.specs.Records.{held_ports, held_flows};
ghost use Rattle.plan_records.specs.Insertion.{place_of, inserted};

use crate::row::{Row, put};
use plan::{Flow, Port};

pub fn port_put(ports: &mut [Port], port: Port)
    ensures { ports.new ≡ inserted (place_of (λ p. p.number) port.number (held_ports ports.old)) port ports.old }
{
    put(ports, u32::from(port.number), port);
}

pub fn flow_put(flows: &mut [Flow], flow: Flow)
    ensures { flows.new ≡ inserted (place_of flow_key (flow_key flow) (held_flows flows.old)) flow flows.old }
{
    put(flows, flow.key(), flow);
}

// The flow with this number gets an MP of this kind at the level, and any other stays as it is.
fn mp_put(f: Flow, flow: u32, kind: u8, level: u32) -> Flow
    requires { level < 8 }
    ensures { result ≡ with_mp flow kind level f }
{
    if u32::from(f.number) != flow {
        return f;
    }
    let mut mps = f.mps;
    mps[level as usize] = kind;
    Flow { mps, ..f }
}

pub fn mps_put(flows: &mut [Flow], flow: u32, kind: u8, level: u32)
    requires { level < 8 }
    ensures { flows.new ≡ map (with_mp flow kind level) flows.old }
{
    for f in flows.iter_mut() {
        *f = mp_put(*f, flow, kind, level);
    }
}
