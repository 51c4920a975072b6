// A plan's text, read line by line.
ghost use Rattle.std.specs.Prelude.{◌≡◌, true, Ok, Err, IfOk, IfErr};
ghost use Rattle.plan.specs.Plan.{so_far};
ghost use Rattle.plan.specs.Line.{line_of};
ghost use Rattle.plan.specs.PlanText.{reason_of, added, empty_plan, plan_in};
ghost use Rattle.plan.specs.Records.{plan_of, by_value};
ghost use Rattle.plan_reader.specs.ReadPlan.{judged, read_as};

use crate::additions::with_line;
use crate::fault::{Fault, Reason};
use crate::reasons::reason_of;
use plan::{FLOWS, LONGEST_TEXT, PORTS, Records};
use plan_lines::{LF, end_of, line_of};
use plan_records::{no_flow, no_port, none_held};

fn no_records() -> Records
    ensures { result ≡ by_value empty_plan }
{
    Records {
        ports: [no_port(); PORTS],
        flows: [no_flow(); FLOWS],
    }
}

// The record of a line added to those held, or the reason why not; they are then as they were.
#[inline(never)]
fn read_line(r: &mut Records, line: &[u8]) -> Result<(), Reason>
    requires { (r.old ≡ by_value (plan_of r.old)) × (so_far (plan_of r.old) ≡ true) }
    ensures reason { result ≡ judged (reason_of (plan_of r.old) (line_of line.now)) }
    ensures records { IfOk result (λ _. r.new ≡ by_value (added (line_of line.now) (plan_of r.old))) }
    ensures kept { IfErr result (λ _. r.new ≡ r.old) }
{
    let Some(said) = line_of(line) else {
        return Err(Reason::Unreadable);
    };
    reason_of(r, said)?;
    with_line(r, said);
    Ok(())
}

#[inline(never)]
pub fn read_plan(text: &[u8]) -> Result<Records, Fault>
    ensures { result ≡ read_as (plan_in text.now) }
{
    if LONGEST_TEXT < text.len() {
        return Err(Reason::TooLong.at(0));
    }
    let mut records = no_records();
    let mut n: u32 = 1;
    let mut at: usize = 0;
    // Stays a `while`: only where a line ends is it known where the next one begins.
    while at < text.len() {
        let end = end_of(text, at, LF);
        if end == text.len() {
            return Err(Reason::Unreadable.at(n));
        }
        if let Err(reason) = read_line(&mut records, &text[at..end]) {
            return Err(reason.at(n));
        }
        n += 1;
        at = end + 1;
    }
    if none_held(&records.ports) {
        return Err(Reason::NoPort.at(0));
    }
    Ok(records)
}
