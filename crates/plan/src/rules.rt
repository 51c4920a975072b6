// Rules of the plan: which way an MP faces, the order of flows, the addresses that a port may have.
#![tactic(auto, unfolding(crate::specs::Plan::faces, crate::specs::Plan::set_key, crate::specs::Plan::good_address, octets::specs::Lists::within))]

ghost use Rattle.std.specs.Prelude.{◌≡◌};
ghost use Rattle.plan.specs.Plan.{faces, set_key, good_address};

use crate::words::{DOWN, MIP, UP};
use codec::{CEN, EXTERNAL, is_group};

// What a port and a kind count in the number of a port and a frame set.
const OF_PORT: u32 = 16777216;

const OF_KIND: u32 = 65536;

pub fn faces(mp: u8, side: u8) -> bool
    ensures { result ≡ faces mp side }
{
    match side {
        CEN => mp == UP || mp == MIP,
        EXTERNAL => mp == DOWN || mp == MIP,
        _ => false,
    }
}

// Port and frame set as one number, by which flows are ordered.
pub fn set_key(port: u8, kind: u8, vid: u16) -> u32
    ensures { result ≡ set_key port kind vid }
{
    port as u32 * OF_PORT + kind as u32 * OF_KIND + vid as u32
}

pub fn good_address(address: u64) -> bool
    ensures { result ≡ good_address address }
{
    address != 0 && !is_group(address)
}
