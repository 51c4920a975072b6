// The calls as a host sees them: C entries over the lent image.
ghost use Rattle.std.specs.Prelude.{[]};
ghost use Rattle.calls.specs.Calls.{frame as framed, tick, allow, prohibit, notice, restart, enter};
ghost use Rattle.tmavolice.specs.Outcome.{Outcome};

use crate::answers::{
    answer_allow, answer_frame, answer_notice, answer_prohibit, answer_restart, answer_tick, told,
};

pub fn tmavolice_frame(image: &mut [u8], port: u32, side: u32, frame: &[u8], out: &mut [u8]) -> u64
    ensures { Outcome (enter image.old (framed port side frame.now out.old))
        result image.new out.new }
{
    told(answer_frame(image, port, side, frame, out))
}

pub fn tmavolice_tick(image: &mut [u8], clock: u32) -> u64
    ensures { Outcome (enter image.old (tick clock)) result image.new [] }
{
    told(answer_tick(image, clock))
}

pub fn tmavolice_allow(image: &mut [u8], flow: u32) -> u64
    ensures { Outcome (enter image.old (allow flow)) result image.new [] }
{
    told(answer_allow(image, flow))
}

pub fn tmavolice_prohibit(image: &mut [u8], flow: u32) -> u64
    ensures { Outcome (enter image.old (prohibit flow)) result image.new [] }
{
    told(answer_prohibit(image, flow))
}

pub fn tmavolice_notice(image: &mut [u8], out: &mut [u8]) -> u64
    ensures { Outcome (enter image.old (notice out.old))
        result image.new out.new }
{
    told(answer_notice(image, out))
}

pub fn tmavolice_restart(image: &mut [u8], clock: u32) -> u64
    ensures { Outcome (enter image.old (restart clock)) result image.new [] }
{
    told(answer_restart(image, clock))
}
