// The unit of a plan's text.
ghost use Rattle.std.specs.Prelude.{◌≤◌, length};
ghost use Rattle.events_shift.specs.Shift.{made};
ghost use Rattle.events_shift.specs.Ready.{Ready};

use crate::steps::LENGTHS;
use events::put_fault;
use tmavolice::tmavolice_make;

// The outcome of a faulty plan. (Stays a number: a C entry answers it as one.)
const FAULT: u64 = 7;

// Makes the unit at clock 0. The line of a faulty plan is written at the front of the output; answers how much was, which is nothing
// where the unit is made.
pub fn make_unit(image: &mut [u8], plan: &[u8], out: &mut [u8]) -> usize
    requires { 48 ≤ length out.old }
    ensures { Ready (made image.old plan.now) result
        image.new out.old out.new }
{
    let answer = tmavolice_make(image, plan, 0);
    if answer % 256 != FAULT {
        return 0;
    }
    put_fault(out, 0, answer / LENGTHS, (answer / 256 % 256) as u8)
}
