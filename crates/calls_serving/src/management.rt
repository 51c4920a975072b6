// Tick, allow, prohibit and restart, on a valid state's image.
ghost use Rattle.std.specs.Prelude.{◌≡◌, ◌<◌, ◌≤◌, length};
ghost use Rattle.machine.specs.declared.Machine.TheVariants.{Inactive};
ghost use Rattle.machine.specs.Table.{mgmt_allow, mgmt_prohibit, action_of, event_at};
ghost use Rattle.machine.specs.Machine.{condition_of};
ghost use Rattle.machine.specs.Management.{allowed_after};
ghost use Rattle.state.specs.State.{is_allowed};
ghost use Rattle.state.specs.Image.{image, state_of};
ghost use Rattle.calls.specs.Calls.{ticked_to, managed, restarted_at};
ghost use Rattle.calls_serving.specs.Preconditions.{ImageKnown, FlowKnown};

use machine::{
    ACTIVE, MGMT_ALLOW, MGMT_PROHIBIT, Machine, action, allowed_after, condition_of, elapsed,
    managed_by, ticked,
};
use state::{Image, allows, clock_of};
use state_store::{clear_sessions, set_allowed, set_clock, sweep_sessions};

pub fn tick_to(b: &mut Image, clock: u32)
    requires { ImageKnown b.old }
    ensures { b.new ≡ image (ticked_to clock (state_of b.old)) }
{
    let passed = elapsed(clock, clock_of(b));
    sweep_sessions(b, |x| ticked(passed, x));
    set_clock(b, clock);
}

// Is the flow allowed after an event of management? The table says it of the flow as one that has no session.
fn allowed_by(b: &Image, flow: usize, event: usize) -> bool
    requires { (1 ≤ flow) × ((flow ≤ 32) × (event < 8)) }
    ensures { result ≡ allowed_after
        (action_of (condition_of (is_allowed flow (state_of b.now)) Inactive) (event_at event))
        (is_allowed flow (state_of b.now)) }
{
    let now = allows(b, flow);
    allowed_after(action(condition_of(now, Machine::Inactive), event), now)
}

// An event of management at a flow, and at each open session of it.
fn manage_flow(b: &mut Image, flow: usize, event: usize)
    requires { FlowKnown b.old flow × (event < 8) }
    ensures { b.new ≡ image (managed (event_at event) flow (state_of b.old)) }
{
    let on = allowed_by(b, flow, event);
    let act = action(ACTIVE, event);
    sweep_sessions(b, |x| managed_by(act, flow as u16, x));
    set_allowed(b, flow, on);
}

pub fn allow_flow(b: &mut Image, flow: usize)
    requires { FlowKnown b.old flow }
    ensures { b.new ≡ image (managed mgmt_allow flow (state_of b.old)) }
{
    manage_flow(b, flow, MGMT_ALLOW);
}

pub fn prohibit_flow(b: &mut Image, flow: usize)
    requires { FlowKnown b.old flow }
    ensures { b.new ≡ image (managed mgmt_prohibit flow (state_of b.old)) }
{
    manage_flow(b, flow, MGMT_PROHIBIT);
}

pub fn restart_at(b: &mut Image, clock: u32)
    requires { ImageKnown b.old }
    ensures { b.new ≡ image (restarted_at clock (state_of b.old)) }
{
    clear_sessions(b);
    set_clock(b, clock);
}
