// Words as numbers, as the definitions have them.
// Stays numbers: `state_of` and `ok_image` read each octet of the image as it stands, whatever it is, and validity says which are kinds.

// Kinds of port.
pub const UNI: u8 = 1;

pub const ENNI: u8 = 2;

// Kinds of frame set.
pub const UNTAGGED: u8 = 1;

pub const C_TAGGED: u8 = 2;

pub const S_TAGGED: u8 = 3;

// Sides: from the External Network, from the CEN.
pub const EXTERNAL: u8 = 0;

pub const CEN: u8 = 1;

// Tag types, and the type of service OAM.
pub const C_TAG: usize = 0x8100;

pub const S_TAG: usize = 0x88A8;

pub const OAM_TYPE: usize = 0x8902;

// VIDs are the low 12 bits of a tag; how many octets a tag has.
pub const VIDS: usize = 4096;

pub const TAG_LENGTH: usize = 4;
