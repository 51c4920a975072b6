// Input cut into lines as it arrives.
ghost use Rattle.std.specs.Prelude.{◌≡◌, ◌-◌, ◌≤◌, length, take, drop};
ghost use Rattle.events_shift.specs.Kept.{Kept};

use octets::move_down;

// What is kept of a line that has not ended: enough to tell that it is too long, if it is.
pub const KEPT: usize = 4101;

// What stands in a buffer from one place up to another is kept at its front; answers how much there is.
pub fn keep(buffer: &mut [u8], from: usize, upto: usize) -> usize
    requires { (from ≤ upto) × (upto ≤ length buffer.old) }
    ensures { Kept (take (upto - from) (drop from buffer.old)) result buffer.old buffer.new }
{
    let n = (upto - from).min(KEPT);
    move_down(buffer, from, from, from + n);
    n
}
