// The head of an image: the clock, and which flows are allowed.
ghost use Rattle.std.specs.Prelude.{◌≡◌, ◌+◌, ◌≤◌, length, set};
ghost use Rattle.octets.specs.Octets.{splice, low_octets};
ghost use Rattle.state.specs.Image.{bit};

use octets::put_low4;
use state::{ALLOWED_BEFORE, CLOCK_AT, Image};

pub fn set_clock(b: &mut Image, clock: u32)
    ensures { b.new ≡ splice 0 (low_octets 4 clock) b.old }
{
    put_low4(b, CLOCK_AT, clock);
}

pub fn set_allowed(b: &mut Image, flow: usize, allowed: bool)
    requires { (1 ≤ flow) × (flow ≤ 32) }
    ensures { b.new ≡ set b.old (31 + flow) (bit allowed) }
{
    b[ALLOWED_BEFORE + flow] = u8::from(allowed);
}
