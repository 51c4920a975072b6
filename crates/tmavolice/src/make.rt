// A unit is made from a plan's text.
ghost use Rattle.std.specs.Prelude.{[]};
ghost use Rattle.calls.specs.Calls.{make, enter};
ghost use Rattle.tmavolice.specs.Outcome.{Outcome};

use crate::answers::told;
use crate::refusals::Refusal;
use calls::{Answer, answer_number};
use plan_reader::read_plan;
use state::IMAGE_LENGTH;
use state_maker::make_image;

pub fn tmavolice_make(image: &mut [u8], plan: &[u8], clock: u32) -> u64
    ensures { Outcome (enter image.old (make plan.now clock)) result image.new [] }
{
    if image.len() != IMAGE_LENGTH {
        return told(Err(Refusal::NoValidImage));
    }
    match read_plan(plan) {
        Err(fault) => answer_number(Answer::Faulty(fault.line, fault.reason.number())),
        Ok(records) => {
            make_image(image.as_mut_array().unwrap(), &records, clock);
            answer_number(Answer::Done)
        }
    }
}
