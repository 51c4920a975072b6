// Why a line is refused: the first reason that applies.
ghost use Rattle.std.specs.Prelude.{◌≡◌, ◌||◌, eqb};
ghost use Rattle.octets.specs.Lists.{some, first};
ghost use Rattle.plan.specs.Plan.{no_port, no_flow, flow_key, in_plan};
ghost use Rattle.plan.specs.PlanText.{port_reason, flow_reason, mp_reason};
ghost use Rattle.plan.specs.Records.{held_ports, held_flows, plan_of};
ghost use Rattle.plan_reader.specs.ReadPlan.{judged, said_reason};

use crate::fault::Reason;
use crate::ranges::{flow_out, good_kind, mp_out, port_out};
use plan::{Flow, MOST_MPS, Port, Records, set_key};
use plan_lines::Said;
use plan_records::{address_held, flow_numbered, mps_held, port_numbered, set_held};

// Is a port there with this number or this address?
fn port_again(ports: &[Port], number: u32, address: u64) -> bool
    ensures { result ≡ (in_plan (first (λ p. eqb p.number number) no_port (held_ports ports.now)).number
        || some (λ p. eqb p.address address) (held_ports ports.now)) }
{
    port_numbered(ports, number).is_some() || address_held(ports, address)
}

#[inline(never)]
fn port_reason(r: &Records, number: u32, address: u64) -> Result<(), Reason>
    ensures { result ≡ judged (port_reason (plan_of r.now) number address) }
{
    if port_out(number, address) {
        return Err(Reason::OutOfRange);
    }
    if port_again(&r.ports, number, address) {
        return Err(Reason::Repeated);
    }
    Ok(())
}

// Is a flow there with this number or this port and frame set?
fn flow_again(flows: &[Flow], number: u32, key: u32) -> bool
    ensures { result ≡ (in_plan (first (λ f. eqb f.number number) no_flow (held_flows flows.now)).number
        || in_plan (first (λ f. eqb (flow_key f) key) no_flow (held_flows flows.now)).number) }
{
    flow_numbered(flows, number).is_some() || set_held(flows, key)
}

#[inline(never)]
fn flow_reason(r: &Records, number: u32, port: u32, kind: u8, vid: u32) -> Result<(), Reason>
    ensures { result ≡ judged (flow_reason (plan_of r.now) number port kind vid) }
{
    if flow_out(number, port, kind, vid) {
        return Err(Reason::OutOfRange);
    }
    let Some(p) = port_numbered(&r.ports, port) else {
        return Err(Reason::Unnamed); // no such port
    };
    if !good_kind(kind, p.kind) {
        return Err(Reason::OutOfRange);
    }
    if flow_again(&r.flows, number, set_key(port as u8, kind, vid as u16)) {
        return Err(Reason::Repeated);
    }
    Ok(())
}

#[inline(never)]
fn mp_reason(r: &Records, flow: u32, level: u32) -> Result<(), Reason>
    ensures { result ≡ judged (mp_reason (plan_of r.now) flow level) }
{
    if mp_out(flow, level) {
        return Err(Reason::OutOfRange);
    }
    let Some(f) = flow_numbered(&r.flows, flow) else {
        return Err(Reason::Unnamed); // no such flow
    };
    if f.mps[level as usize] != 0 {
        return Err(Reason::Repeated);
    }
    if MOST_MPS <= mps_held(&r.flows) {
        return Err(Reason::TooManyMps);
    }
    Ok(())
}

pub fn reason_of(r: &Records, line: Said) -> Result<(), Reason>
    ensures { result ≡ judged (said_reason (plan_of r.now) line) }
{
    match line {
        Said::OfPort(number, _, address) => port_reason(r, number, address),
        Said::OfFlow(number, port, kind, vid) => flow_reason(r, number, port, kind, vid),
        Said::OfMp(flow, _, level) => mp_reason(r, flow, level),
    }
}
