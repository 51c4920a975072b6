// Why a call is refused. The order of checks is the order of the refusals, save that the last one comes first.
ghost use Rattle.std.specs.Prelude.{◌≡◌, true, ℕ, length};
ghost use Rattle.plan.specs.Plan.{port_numbered};
ghost use Rattle.state.specs.Image.{state_of, ok_image};
ghost use Rattle.calls.specs.Calls.{frame as framed, tick, allow, notice, restart};
ghost use Rattle.calls_serving.specs.Preconditions.{ImageKnown, FlowKnown, NoticeKnown, Fair};
ghost use Rattle.tmavolice.specs.Checks.{refusal_number, checked_number, image_checked, quiet_checked, Checked};

use codec::CEN;
use machine::jumped;
use plan::Port;
use state::{Image, clock_of, notice_due, numbered_at};
use state_valid::is_image;

// The lengths that frames and outputs have.
const SHORTEST_FRAME: usize = 14;

const LONGEST_FRAME: usize = 2000;

const LEAST_OUTPUT: usize = 2008;

// The refusals, as include/tmavolice.h names and numbers them.
#[derive(Clone, Copy)]
pub enum Refusal {
    NoSuchPlace = 1,
    FrameLength = 2,
    ShortOutput = 3,
    NoticeDue = 4,
    ClockJumped = 5,
    NoSuchFlow = 6,
    NoNoticeDue = 7,
    NoValidImage = 8,
}

impl Refusal {
    // The number by which a host knows it.
    pub fn number(self) -> u8
        ensures { result ≡ refusal_number self }
    {
        self as u8
    }
}

// Check 8 goes first.
pub fn image_refusal(image: &[u8]) -> Result<(), Refusal>
    ensures { checked_number result ≡ image_checked image.now }
{
    if is_image(image) {
        return Ok(());
    }
    Err(Refusal::NoValidImage)
}

// The octets of an image that passed that check.
fn whole(image: &[u8]) -> &Image
    requires { length image.now ≡ 4096 }
    ensures { result.now ≡ image.now }
{
    image.as_array().unwrap()
}

// Of a call that has to wait for a notice to be taken.
fn quiet_refusal(image: &[u8]) -> Result<(), Refusal>
    ensures { checked_number result ≡ quiet_checked image.now }
{
    image_refusal(image)?;
    if notice_due(whole(image)) {
        return Err(Refusal::NoticeDue);
    }
    Ok(())
}

// Of a frame at this port, which has number 0 where there is none; the image is a valid state's.
pub fn frame_refusal(
    image: &[u8],
    arrival: Port,
    side: u32,
    frame: &[u8],
    out: &[u8],
) -> Result<(), Refusal>
    requires { ok_image image.now ≡ true }
    ensures { (port : ℕ) → arrival ≡ port_numbered port (state_of image.now).plan
        → Checked image.now (framed port side frame.now out.now)
        (Fair image.now side frame.now out.now) (checked_number result) }
{
    if arrival.number == 0 {
        return Err(Refusal::NoSuchPlace); // no such port
    }
    if (CEN as u32) < side {
        return Err(Refusal::NoSuchPlace); // no such side
    }
    if frame.len() < SHORTEST_FRAME {
        return Err(Refusal::FrameLength); // too short
    }
    if LONGEST_FRAME < frame.len() {
        return Err(Refusal::FrameLength); // too long
    }
    if out.len() < LEAST_OUTPUT {
        return Err(Refusal::ShortOutput); // no room
    }
    if notice_due(whole(image)) {
        return Err(Refusal::NoticeDue);
    }
    Ok(())
}

pub fn tick_refusal(image: &[u8], clock: u32) -> Result<(), Refusal>
    ensures { Checked image.now (tick clock) (ImageKnown image.now) (checked_number result) }
{
    quiet_refusal(image)?;
    if jumped(clock, clock_of(whole(image))) {
        return Err(Refusal::ClockJumped);
    }
    Ok(())
}

// Of a call that allows or prohibits a flow.
pub fn flow_refusal(image: &[u8], flow: u32) -> Result<(), Refusal>
    ensures { Checked image.now (allow flow) (FlowKnown image.now flow) (checked_number result) }
{
    quiet_refusal(image)?;
    if numbered_at(whole(image), flow).is_none() {
        return Err(Refusal::NoSuchFlow);
    }
    Ok(())
}

pub fn notice_refusal(image: &[u8], out: &[u8]) -> Result<(), Refusal>
    ensures { Checked image.now (notice out.now)
        (NoticeKnown image.now out.now) (checked_number result) }
{
    image_refusal(image)?;
    if LEAST_OUTPUT > out.len() {
        return Err(Refusal::ShortOutput);
    }
    if !notice_due(whole(image)) {
        return Err(Refusal::NoNoticeDue);
    }
    Ok(())
}

pub fn restart_refusal(image: &[u8]) -> Result<(), Refusal>
    ensures { (clock : ℕ) → Checked image.now (restart clock) (ImageKnown image.now) (checked_number result) }
{
    image_refusal(image) // a notice due or not
}
