// The records held: what is found among them.
ghost use Rattle.std.specs.Prelude.{◌≡◌, ◌≤◌, ◌==◌, not, eqb, find, length, count_by};
ghost use Rattle.octets.specs.Lists.{first, some};
ghost use Rattle.plan.specs.Plan.{no_port, no_flow, flow_key, in_plan, mp_count};
ghost use Rattle.plan.specs.Records.{held_ports, held_flows};

use crate::row::{Row, held};
use plan::{FLOWS, Flow, LEVELS, PORTS, Port};

pub fn no_port() -> Port
    ensures { result ≡ no_port }
{
    Port {
        number: 0,
        kind: 0,
        address: 0,
    }
}

pub fn no_flow() -> Flow
    ensures { result ≡ no_flow }
{
    Flow {
        number: 0,
        port: 0,
        kind: 0,
        vid: 0,
        mps: [0; LEVELS],
    }
}

pub fn port_numbered(ports: &[Port], number: u32) -> Option<Port>
    ensures { result ≡ find (λ p. eqb p.number number) (held_ports ports.now) }
{
    held(ports)
        .iter()
        .copied()
        .find(|p| u32::from(p.number) == number)
}

pub fn none_held(ports: &[Port; PORTS]) -> bool
    ensures { result ≡ eqb (length (held_ports ports.now)) 0 }
{
    ports[0].number == 0
}

pub fn address_held(ports: &[Port], address: u64) -> bool
    ensures { result ≡ some (λ p. eqb p.address address) (held_ports ports.now) }
{
    held(ports).iter().any(|p| p.address == address)
}

pub fn flow_numbered(flows: &[Flow], number: u32) -> Option<Flow>
    ensures { result ≡ find (λ f. eqb f.number number) (held_flows flows.now) }
{
    held(flows)
        .iter()
        .copied()
        .find(|f| u32::from(f.number) == number)
}

// Has a flow this port and frame set, as one number?
pub fn set_held(flows: &[Flow], key: u32) -> bool
    ensures { result ≡ in_plan (first (λ f. eqb (flow_key f) key) no_flow (held_flows flows.now)).number }
{
    held(flows).iter().any(|f| f.key() == key)
}

fn mps_in(mps: &[u8; LEVELS]) -> usize
    ensures { (result ≡ count_by (λ mp. not (mp == 0)) mps.now) × (result ≤ 8) }
{
    mps.iter().filter(|mp| **mp != 0).count()
}

pub fn mps_held(flows: &[Flow; FLOWS]) -> u32
    ensures { result ≡ mp_count (held_flows flows.now) }
{
    let mut n: usize = 0;
    for f in held(flows) {
        n += mps_in(&f.mps);
    }
    n as u32
}
