// The flows' rows of an image: are they right? Nothing is compared twice: rows ascend, and each number leads back to its row.
ghost use Rattle.std.specs.Prelude.{◌≡◌, ◌&&◌, ◌+◌, ◌≤◌, eqb, leb, length, take, drop};
ghost use Rattle.octets.specs.Lists.{count};
ghost use Rattle.plan.specs.Plan.{port_numbered};
ghost use Rattle.state.specs.Image.{state_of};
ghost use Rattle.state_tables.specs.Pass.{odd_of, marks_of, octet_sum, set_fits, place_fits, ok_flows};

use crate::marks::used;
use crate::rest::{LONG_RUN, rest_zero};
use octets::{low4, low8};
use state::{
    FLOW_FREE_AT, FLOW_LATER_FREE_AT, FLOW_MPS_AT, FLOW_PORT_AT, FLOW_VID_AT, FLOW_WIDTH, Image,
    LAST_FLOW, MOST_FLOWS, PLACES_AT, PLACES_BEFORE, PLACES_END, PORT_KIND_AT, port_at, wide,
};

// 4 for each of 32 MPs.
const MOST_MARKS: u64 = 128;

fn odd_of(t: &[u8], at: usize) -> u64
    requires { at + 32 ≤ length t.now }
    ensures { result ≡ odd_of (drop at t.now) }
{
    low8(t, at + FLOW_MPS_AT) & 0xFCFCFCFCFCFCFCFC
        | low8(t, at + FLOW_FREE_AT)
        | low8(t, at + FLOW_LATER_FREE_AT)
}

fn marks_of(mps: u64) -> u64
    ensures { (result ≡ marks_of mps) × (result ≤ 0x0404040404040404) }
{
    ((mps & 0x0303030303030303) + 0x0303030303030303) & 0x0404040404040404
}

// The octets are summed by pairs, all pairs at once, and then by fours.
fn octet_sum(x: u64) -> u64
    ensures { result ≡ octet_sum 8 x }
{
    let pairs = (x & 0x00FF00FF00FF00FF) + (x / 256 & 0x00FF00FF00FF00FF);
    let fours = pairs % 4294967296 + pairs / 4294967296;
    fours % 65536 + fours / 65536
}

fn kind_of(b: &Image, port: u8) -> u8
    ensures { result ≡ (port_numbered port (state_of b.now).plan).kind }
{
    let Some(at) = port_at(b, port as u32) else {
        return 0;
    };
    b[at + PORT_KIND_AT]
}

// The same, if the kind of the row before is known.
fn kind_again(b: &Image, before: u8, kind: u8, port: u8) -> u8
    requires { kind ≡ (port_numbered before (state_of b.now).plan).kind }
    ensures { result ≡ (port_numbered port (state_of b.now).plan).kind }
{
    if port == before {
        kind
    } else {
        kind_of(b, port)
    }
}

fn set_fits(kind: u8, set: u32) -> bool
    ensures { result ≡ set_fits kind set }
{
    let base = (u32::from(kind) + 1) * 65536;
    kind != 0 && (set == 65536 || base < set && set <= base + 4094)
}

fn place_fits(b: &Image, place: usize, low: u32) -> bool
    ensures { result ≡ place_fits b.now place low }
{
    let number = low / 256;
    low % 256 == 0
        && 1 <= number
        && number <= LAST_FLOW
        && wide(b[PLACES_BEFORE + number as usize]) == place
}

// The places are counted beside the comparison: there the compiler counts all of them at once.
fn marks_fit(b: &Image, odd: u64, marks: u64, rows: usize) -> bool
    ensures { result
        ≡ (eqb odd 0
        && leb (octet_sum 8 marks) 128
        && eqb rows (count (leb 1) (take 32 (drop 64 b.now)))) }
{
    odd == 0 && octet_sum(marks) <= MOST_MARKS && rows == used(&b[PLACES_AT..PLACES_END])
}

pub fn flows_fit(b: &Image, t: &[u8]) -> bool
    requires { length t.now ≡ 1024 }
    ensures { result ≡ ok_flows b.now t.now }
{
    let mut last: u32 = 0;
    let mut odd: u64 = 0;
    let mut marks: u64 = 0;
    let mut port = t[FLOW_PORT_AT];
    let mut kind = kind_of(b, port);
    for i in 0..MOST_FLOWS {
        let at = i * FLOW_WIDTH;
        if low8(t, at) == 0 {
            return marks_fit(b, odd, marks, i) && rest_zero(t, at, LONG_RUN);
        }
        let key = low4(t, at + FLOW_VID_AT);
        if key <= last {
            return false;
        }
        last = key;
        kind = kind_again(b, port, kind, t[at + FLOW_PORT_AT]);
        port = t[at + FLOW_PORT_AT];
        if !set_fits(kind, key % 16777216) {
            return false;
        }
        if !place_fits(b, i + 1, low4(t, at)) {
            return false;
        }
        odd |= odd_of(t, at);
        marks += marks_of(low8(t, at + FLOW_MPS_AT));
    }
    marks_fit(b, odd, marks, MOST_FLOWS)
}
