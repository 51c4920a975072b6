// "Finding the machine": a frame's addresses, its tag, and the frame set that it belongs to.
ghost use Rattle.std.specs.Prelude.{◌≡◌, ◌||◌, ◌+◌, ◌<◌, ◌≤◌, ◌^◌, eqb, length};
ghost use Rattle.codec.specs.FrameSet.{destination, source, group, vid_of, tagged, by_tag, sets_of, sets_in, soam, c_tag, s_tag};

use crate::words::{
    C_TAG, C_TAGGED, ENNI, OAM_TYPE, S_TAG, S_TAGGED, TAG_LENGTH, UNI, UNTAGGED, VIDS,
};
use crate::{FrameSet, Place};

const LAST_VID: usize = 4094;
// How many octets a frame with one tag has at the least.
const TAGGED_FRAME: usize = 18;

// The address in the first six octets.
pub fn destination_of(frame: &[u8]) -> u64
    requires { 14 ≤ length frame.now }
    ensures { (result ≡ destination frame.now) × (result < 2 ^ 48) }
{
    octets::number6(frame, 0)
}

// The address in the six octets behind that.
pub fn source_of(frame: &[u8]) -> u64
    requires { 14 ≤ length frame.now }
    ensures { (result ≡ source frame.now) × (result < 2 ^ 48) }
{
    octets::number6(frame, 6)
}

// Is the lowest bit of the address's first octet set?
pub fn is_group(address: u64) -> bool
    ensures { result ≡ group address }
{
    address / 1099511627776 % 2 == 1
}

// Is the type that of a C-tag or of an S-tag?
fn is_tag(first: usize) -> bool
    ensures { result ≡ (eqb first c_tag || eqb first s_tag) }
{
    first == C_TAG || first == S_TAG
}

// The place of a frame with a whole tag of the port's own type: VID 0 and 4095 have none.
fn tagged_set(kind: u8, tag: usize) -> Option<Place>
    ensures { sets_in result ≡ tagged kind (vid_of tag) }
{
    match tag % VIDS {
        vid @ 1..=LAST_VID => Some(Place {
            set: FrameSet {
                kind,
                vid: vid as u16,
            },
            taglen: TAG_LENGTH,
        }),
        _ => None,
    }
}

// The place of a frame with a whole tag, by the port's kind, the tag's type and its number.
fn set_of_tag(kind: u8, first: usize, tag: usize) -> Option<Place>
    ensures { sets_in result ≡ by_tag kind first tag }
{
    match (kind, first) {
        (UNI, C_TAG) => tagged_set(C_TAGGED, tag),
        (ENNI, S_TAG) => tagged_set(S_TAGGED, tag),
        _ => None,
    }
}

// The place of a frame at a port of this kind, if it is in a set. Its source has been read.
pub fn set_of(kind: u8, sender: u64, frame: &[u8]) -> Option<Place>
    requires { (14 ≤ length frame.now) × (sender ≡ source frame.now) }
    ensures { sets_in result ≡ sets_of kind frame.now }
{
    if is_group(sender) {
        return None;
    }
    let first = octets::number2(frame, 12);
    if is_tag(first) {
        if frame.len() < TAGGED_FRAME {
            return None;
        }
        return set_of_tag(kind, first, octets::number2(frame, 14));
    }
    Some(Place {
        set: FrameSet {
            kind: UNTAGGED,
            vid: 0,
        },
        taglen: 0,
    })
}

// Is the type straight after so many octets of tag that of service OAM?
pub fn is_soam(taglen: usize, frame: &[u8]) -> bool
    requires { 14 + taglen ≤ length frame.now }
    ensures { result ≡ soam taglen frame.now }
{
    octets::number2(frame, 12 + taglen) == OAM_TYPE
}
