// The calls: each is refused, or is carried out and answers.
ghost use Rattle.std.specs.Prelude.{◌≡◌, []};
ghost use Rattle.calls.specs.Answer.{number_of};
ghost use Rattle.calls.specs.Calls.{frame as framed, tick, allow, prohibit, notice, restart, enter};
ghost use Rattle.tmavolice.specs.Checks.{answer_of};
ghost use Rattle.tmavolice.specs.Outcome.{Outcome};

use crate::refusals::{
    Refusal, flow_refusal, frame_refusal, image_refusal, notice_refusal, restart_refusal,
    tick_refusal,
};
use calls::{Answer, answer_number};
use calls_serving::{allow_flow, prohibit_flow, restart_at, serve_frame, take_notice, tick_to};
use state::port_numbered;

// The number of what a call answers, or of its refusal.
pub fn told(answer: Result<Answer, Refusal>) -> u64
    ensures { result ≡ number_of (answer_of answer) }
{
    match answer {
        Ok(answer) => answer_number(answer),
        Err(refusal) => answer_number(Answer::Refused(refusal.number())),
    }
}

// What each call answers, or why it is refused.
pub fn answer_frame(
    image: &mut [u8],
    port: u32,
    side: u32,
    frame: &[u8],
    out: &mut [u8],
) -> Result<Answer, Refusal>
    ensures { Outcome (enter image.old (framed port side frame.now out.old))
        (number_of (answer_of result)) image.new out.new }
{
    image_refusal(&image[..])?;
    let image = image.as_mut_array().unwrap();
    let arrival = port_numbered(image, port);
    frame_refusal(&image[..], arrival, side, frame, &out[..])?;
    Ok(serve_frame(image, arrival, side as u8, frame, out))
}

pub fn answer_tick(image: &mut [u8], clock: u32) -> Result<Answer, Refusal>
    ensures { Outcome (enter image.old (tick clock)) (number_of (answer_of result)) image.new [] }
{
    tick_refusal(image, clock)?;
    tick_to(image.as_mut_array().unwrap(), clock);
    Ok(Answer::Done)
}

pub fn answer_allow(image: &mut [u8], flow: u32) -> Result<Answer, Refusal>
    ensures { Outcome (enter image.old (allow flow)) (number_of (answer_of result)) image.new [] }
{
    flow_refusal(image, flow)?;
    allow_flow(image.as_mut_array().unwrap(), flow as usize);
    Ok(Answer::Done)
}

pub fn answer_prohibit(image: &mut [u8], flow: u32) -> Result<Answer, Refusal>
    ensures { Outcome (enter image.old (prohibit flow)) (number_of (answer_of result)) image.new [] }
{
    flow_refusal(image, flow)?;
    prohibit_flow(image.as_mut_array().unwrap(), flow as usize);
    Ok(Answer::Done)
}

pub fn answer_notice(image: &mut [u8], out: &mut [u8]) -> Result<Answer, Refusal>
    ensures { Outcome (enter image.old (notice out.old))
        (number_of (answer_of result)) image.new out.new }
{
    notice_refusal(image, out)?;
    Ok(take_notice(image.as_mut_array().unwrap(), out))
}

pub fn answer_restart(image: &mut [u8], clock: u32) -> Result<Answer, Refusal>
    ensures { Outcome (enter image.old (restart clock)) (number_of (answer_of result)) image.new [] }
{
    restart_refusal(image)?;
    restart_at(image.as_mut_array().unwrap(), clock);
    Ok(Answer::Done)
}
