// Where a row stands in the image, if there is one.
ghost use Rattle.std.specs.Prelude.{◌≡◌, List, Bool, ℕ, ◌+◌, ◌*◌, ◌≤◌, length, drop};
ghost use Rattle.state.specs.Rows.{row_found, find_row, port_at, flow_at, session_at, owed_at, row_at_place, numbered_at};

use crate::layout::{
    FLOW_VID_AT, FLOW_WIDTH, FLOWS_AT, FLOWS_BEFORE, Image, LAST_FLOW, LAST_PLACE, MOST_FLOWS,
    MOST_PORTS, MOST_SESSIONS, PLACES_BEFORE, PORT_NUMBER_AT, PORT_WIDTH, PORTS_AT,
    SESSION_NOTICE_AT, SESSION_WIDTH, SESSIONS_AT,
};
use crate::records::wide;
use codec::FrameSet;
use octets::{low4, low8};
use plan::set_key;

// A table of the image: where its first row stands, how many rows it has, and how many octets a row.
#[derive(Clone, Copy)]
struct Table {
    start: usize,
    rows: usize,
    width: usize,
}

const PORTS: Table = Table {
    start: PORTS_AT,
    rows: MOST_PORTS,
    width: PORT_WIDTH,
};

const FLOWS: Table = Table {
    start: FLOWS_AT,
    rows: MOST_FLOWS,
    width: FLOW_WIDTH,
};

const SESSIONS: Table = Table {
    start: SESSIONS_AT,
    rows: MOST_SESSIONS,
    width: SESSION_WIDTH,
};

// Where the first row of a table stands that passes. Each row passes or not.
fn find_row<F: Fn(usize) -> bool>(b: &[u8], table: Table, passes: F) -> Option<usize>
    requires inside { (1 ≤ table.start) × ((8 ≤ table.width) × (table.start + table.rows * table.width ≤ length b.now)) }
    requires callable { (at : ℕ) → at + table.width ≤ length b.now → F.pre passes at }
    requires one { (at : ℕ) (x : Bool) (y : Bool) → at + table.width ≤ length b.now → F.post passes at x → F.post passes at y → x ≡ y }
    ensures { (test : List ℕ → Bool)
        → ((at : ℕ) (said : Bool) → at + table.width ≤ length b.now → F.post passes at said → said ≡ test (drop at b.now))
        → result ≡ row_found (find_row table.rows table.width test table.start (drop table.start b.now)) }
{
    for i in 0..table.rows {
        let at = table.start + i * table.width;
        if low8(b, at) == 0 {
            return None;
        }
        if passes(at) {
            return Some(at);
        }
    }
    None
}

pub fn port_at(b: &Image, number: u32) -> Option<usize>
    ensures { result ≡ row_found (port_at number b.now) }
{
    find_row(b, PORTS, |at| b[at + PORT_NUMBER_AT] as u32 == number)
}

pub fn flow_at(b: &Image, port: u8, set: FrameSet) -> Option<usize>
    ensures { result ≡ row_found (flow_at port set b.now) }
{
    let key = set_key(port, set.kind, set.vid);
    find_row(b, FLOWS, |at| low4(b, at + FLOW_VID_AT) == key)
}

pub fn session_at(b: &Image, key: u64) -> Option<usize>
    ensures { result ≡ row_found (session_at key b.now) }
{
    find_row(b, SESSIONS, |at| low8(b, at) == key)
}

pub fn owed_at(b: &Image) -> Option<usize>
    ensures { result ≡ row_found (owed_at b.now) }
{
    find_row(b, SESSIONS, |at| b[at + SESSION_NOTICE_AT] != 0)
}

// The row at a place of the flows' table, from 1.
fn row_at_place(place: u8) -> Option<usize>
    ensures { result ≡ row_found (row_at_place place) }
{
    if place < 1 {
        return None;
    }
    if LAST_PLACE < place {
        return None;
    }
    Some(FLOWS_BEFORE + wide(place) * FLOW_WIDTH)
}

pub fn numbered_at(b: &Image, flow: u32) -> Option<usize>
    ensures { result ≡ row_found (numbered_at flow b.now) }
{
    if flow < 1 {
        return None;
    }
    if LAST_FLOW < flow {
        return None;
    }
    row_at_place(b[PLACES_BEFORE + flow as usize])
}
