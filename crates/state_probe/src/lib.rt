// An entry for the host's measurements and tests: tests an image, and finds a flow, its MP and a session in it.
#![tactic(auto)]

ghost use Rattle.std.specs.Prelude.{◌≡◌, true, ◌+◌, ◌*◌, ◌<◌, ◌^◌};
ghost use Rattle.state.specs.Image.{state_of, ok_image};
ghost use Rattle.state_probe.specs.Probe.{session_part, machine_at, looked};

use codec::FrameSet;
use machine::Machine;
use state::{Image, flow_at, machine_of, mp_of, number_of};
use state_valid::is_image;

fn session_part(m: Machine) -> u64
    ensures { (result ≡ session_part m) × (result + 2 ^ 24 < 2 ^ 64) }
{
    match m {
        Machine::Inactive => 0,
        Machine::Active(x) => 16777216 + x.left as u64 * 4294967296,
    }
}

fn low_part(number: u8, mp: u8) -> u64
    ensures { (result ≡ 1 + number * 2 ^ 8 + mp * 2 ^ 16) × (result < 2 ^ 24) }
{
    1 + number as u64 * 256 + mp as u64 * 65536
}

// The machine of a flow and a source; one of more than 48 bits is no session's.
fn machine_at(image: &Image, flow: u8, source: u64) -> Machine
    ensures { result ≡ machine_at (state_of image.now) flow source }
{
    if 281474976710656 <= source {
        return Machine::Inactive;
    }
    machine_of(image, flow as u64 * 281474976710656 + source)
}

// Of an image that passed the test.
fn look(image: &Image, port: u8, kind: u8, vid: u16, level: u8, source: u64) -> u64
    requires { ok_image image.now ≡ true }
    ensures { result ≡ looked image.now port kind vid level source }
{
    let row = flow_at(image, port, FrameSet { kind, vid });
    let number = number_of(image, row).unwrap_or(0);
    let m = machine_at(image, number, source);
    low_part(number, mp_of(image, row, level)) + session_part(m)
}

#[unsafe(no_mangle)]
pub extern "C" fn probe_look(
    image: &[u8],
    port: u8,
    kind: u8,
    vid: u16,
    level: u8,
    source: u64,
) -> u64
    ensures { result ≡ looked image.now port kind vid level source }
{
    if !is_image(image) {
        return 0;
    }
    match image.as_array() {
        Some(image) => look(image, port, kind, vid, level, source),
        None => 0,
    }
}
