// The product for C: the seven calls as include/tmavolice.h declares them. Each promises what the call of that name promises.
#![tactic(auto)]

ghost use Rattle.std.specs.Prelude.{[]};
ghost use Rattle.calls.specs.Calls.{frame as framed, tick, allow, prohibit, notice, restart, make, enter};
ghost use Rattle.tmavolice.specs.Outcome.{Outcome};

#[unsafe(no_mangle)]
pub extern "C" fn tmavolice_make(image: &mut [u8], plan: &[u8], clock: u32) -> u64
    ensures { Outcome (enter image.old (make plan.now clock)) result image.new [] }
{
    tmavolice::tmavolice_make(image, plan, clock)
}

#[unsafe(no_mangle)]
pub extern "C" fn tmavolice_frame(
    image: &mut [u8],
    port: u32,
    side: u32,
    frame: &[u8],
    out: &mut [u8],
) -> u64
    ensures { Outcome (enter image.old (framed port side frame.now out.old))
        result image.new out.new }
{
    tmavolice::tmavolice_frame(image, port, side, frame, out)
}

#[unsafe(no_mangle)]
pub extern "C" fn tmavolice_tick(image: &mut [u8], clock: u32) -> u64
    ensures { Outcome (enter image.old (tick clock)) result image.new [] }
{
    tmavolice::tmavolice_tick(image, clock)
}

#[unsafe(no_mangle)]
pub extern "C" fn tmavolice_allow(image: &mut [u8], flow: u32) -> u64
    ensures { Outcome (enter image.old (allow flow)) result image.new [] }
{
    tmavolice::tmavolice_allow(image, flow)
}

#[unsafe(no_mangle)]
pub extern "C" fn tmavolice_prohibit(image: &mut [u8], flow: u32) -> u64
    ensures { Outcome (enter image.old (prohibit flow)) result image.new [] }
{
    tmavolice::tmavolice_prohibit(image, flow)
}

#[unsafe(no_mangle)]
pub extern "C" fn tmavolice_notice(image: &mut [u8], out: &mut [u8]) -> u64
    ensures { Outcome (enter image.old (notice out.old))
        result image.new out.new }
{
    tmavolice::tmavolice_notice(image, out)
}

#[unsafe(no_mangle)]
pub extern "C" fn tmavolice_restart(image: &mut [u8], clock: u32) -> u64
    ensures { Outcome (enter image.old (restart clock)) result image.new [] }
{
    tmavolice::tmavolice_restart(image, clock)
}
