// What is in range: numbers, addresses, VIDs, kinds.
#![tactic(auto, unfolding(octets::specs::Lists::within, plan::specs::Plan::good_vid, plan::specs::Plan::good_kind))]

ghost use Rattle.std.specs.Prelude.{◌≡◌, not, ◌||◌};
ghost use Rattle.octets.specs.Lists.{within};
ghost use Rattle.plan.specs.Plan.{good_address, good_vid, good_kind};

use codec::{C_TAGGED, ENNI, S_TAGGED, UNI, UNTAGGED};
use plan::{HIGHEST_FLOW, HIGHEST_LEVEL, HIGHEST_PORT, HIGHEST_VID, good_address};

fn good_vid(kind: u8, vid: u32) -> bool
    ensures { result ≡ good_vid kind vid }
{
    if kind == UNTAGGED {
        vid == 0
    } else {
        (1..=HIGHEST_VID).contains(&vid)
    }
}

// Can a port of this kind have flows of that kind?
pub fn good_kind(kind: u8, port: u8) -> bool
    ensures { result ≡ good_kind kind port }
{
    match kind {
        UNTAGGED => true,
        C_TAGGED => port == UNI,
        S_TAGGED => port == ENNI,
        _ => false,
    }
}

// Is a port out of range?
pub fn port_out(number: u32, address: u64) -> bool
    ensures { result ≡ (not (within 1 8 number) || not (good_address address)) }
{
    !(1..=HIGHEST_PORT).contains(&number) || !good_address(address)
}

// Is a flow?
pub fn flow_out(number: u32, port: u32, kind: u8, vid: u32) -> bool
    ensures { result ≡ (not (within 1 32 number) || not (within 1 8 port) || not (good_vid kind vid)) }
{
    !(1..=HIGHEST_FLOW).contains(&number)
        || !(1..=HIGHEST_PORT).contains(&port)
        || !good_vid(kind, vid)
}

// Is an MP?
pub fn mp_out(flow: u32, level: u32) -> bool
    ensures { result ≡ (not (within 1 32 flow) || not (within 0 7 level)) }
{
    !(1..=HIGHEST_FLOW).contains(&flow) || HIGHEST_LEVEL < level
}
