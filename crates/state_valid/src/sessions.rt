// The sessions' rows of an image: are they right?
ghost use Rattle.std.specs.Prelude.{◌≡◌, cond, ◌&&◌, not, ◌+◌, ◌≤◌, eqb, length, get_or, drop};
ghost use Rattle.codec.specs.FrameSet.{c_tagged, c_tag, s_tag, group, set_of, tag_fits};
ghost use Rattle.plan.specs.Plan.{faces, mp_at};
ghost use Rattle.state.specs.State.{good_time};
ghost use Rattle.state.specs.Rows.{flow_of_row};
ghost use Rattle.state_valid.specs.Sessions.{good_in, session_fits, ok_sessions};

use codec::{C_TAG, C_TAGGED, S_TAG, TAG_LENGTH, UNTAGGED, VIDS, is_group};
use machine::{Code, Session};
use octets::{low2, low8};
use plan::faces;
use state::{
    ALLOWED_BEFORE, FLOW_KIND_AT, FLOW_VID_AT, Image, MOST_SESSIONS, SESSION_FREE_AT,
    SESSION_WIDTH, mp_of, numbered_at, read_session,
};
use state_tables::{LONG_RUN, rest_zero};

// The milliseconds of a day.
const DAY: u32 = 86400000;

// How many octets the rows have together.
const SESSIONS_LENGTH: usize = 512;

fn tag_type(kind: u8) -> u64
    ensures { result ≡ cond (eqb kind c_tagged) c_tag s_tag }
{
    if kind == C_TAGGED {
        C_TAG as u64
    } else {
        S_TAG as u64
    }
}

fn tag_fits(kind: u8, vid: u16, taglen: u8, tag: u64) -> bool
    ensures { result ≡ tag_fits (set_of kind vid) taglen tag }
{
    if kind == UNTAGGED {
        return taglen == 0 && tag == 0;
    }
    taglen == TAG_LENGTH as u8
        && tag / 65536 == tag_type(kind)
        && tag % VIDS as u64 == u64::from(vid)
}

fn good_time(allowed: bool, x: Session) -> bool
    ensures { result ≡ good_time allowed x }
{
    if x.notice == 0 {
        return allowed && 1 <= x.left && x.left <= DAY;
    }
    let owed = if allowed {
        Code::Timeout
    } else {
        Code::Prohibited
    };
    x.left == 0 && x.notice == owed.octet()
}

// Has the session an MP, a tag and time as it must?
fn good_at(b: &Image, row: usize, x: Session) -> bool
    requires { (1 ≤ row) × ((row + 32 ≤ 4096) × (x.flow ≤ 32)) }
    ensures { result
        ≡ (not (group x.source)
        && tag_fits (set_of (flow_of_row (Some row) b.now).kind (flow_of_row (Some row) b.now).vid) x.taglen x.tag
        && faces (mp_at x.level (flow_of_row (Some row) b.now)) x.side
        && good_time (eqb (get_or b.now (31 + x.flow) 0) 1) x) }
{
    let kind = b[row + FLOW_KIND_AT];
    let vid = low2(b, row + FLOW_VID_AT);
    !is_group(x.source)
        && tag_fits(kind, vid, x.taglen, x.tag)
        && faces(mp_of(b, Some(row), x.level), x.side)
        && good_time(b[ALLOWED_BEFORE + x.flow as usize] == 1, x)
}

fn good_in(b: &Image, x: Session) -> bool
    ensures { result ≡ good_in b.now x }
{
    let Some(row) = numbered_at(b, x.flow as u32) else {
        return false;
    };
    good_at(b, row, x)
}

fn session_fits(b: &Image, t: &[u8], at: usize, last: u64) -> bool
    requires { at + 32 ≤ length t.now }
    ensures { result ≡ session_fits b.now last (drop at t.now) }
{
    last < low8(t, at) && good_in(b, read_session(t, at)) && low8(t, at + SESSION_FREE_AT) == 0
}

// The sessions' rows, and all that stands behind them.
pub fn sessions_fit(b: &Image, t: &[u8]) -> bool
    requires { length t.now ≡ 2560 }
    ensures { result ≡ ok_sessions b.now t.now }
{
    let mut last: u64 = 0;
    for i in 0..MOST_SESSIONS {
        let at = i * SESSION_WIDTH;
        let key = low8(t, at);
        if key == 0 {
            return rest_zero(t, at, LONG_RUN);
        }
        if !session_fits(b, t, at, last) {
            return false;
        }
        last = key;
    }
    rest_zero(t, SESSIONS_LENGTH, LONG_RUN)
}
