// The actions by their numbers; specs/Table.antt says what each is.
// Stays numbers: an entry of the table is the number of an action, and `decide` and the like are passed it (docs/RULES.md, FORM-2).
pub const NOTHING: u8 = 0;

pub const FORWARD: u8 = 1;

pub const TURN: u8 = 2;

pub const ADMIT: u8 = 3;

pub const REPORT: u8 = 4;

pub const ALREADY: u8 = 5;

pub const RESTART: u8 = 6;

pub const CLOSE: u8 = 7;

pub const LIFT: u8 = 8;

pub const FORBID: u8 = 9;

pub const WITHDRAW: u8 = 10;

pub const EXPIRE: u8 = 11;
