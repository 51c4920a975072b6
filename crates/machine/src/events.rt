// The three states and the eight events by their numbers, the rows and the columns of the table.
// Stays numbers: the table is a constant array of arrays, and these are its indices (docs/RULES.md, FORM-2).
pub const PROHIBITED: usize = 0;

pub const INACTIVE: usize = 1;

pub const ACTIVE: usize = 2;

pub const RQST_ACTIVATE: usize = 0;

pub const RQST_DEACTIVATE: usize = 1;

pub const RQST_STATE: usize = 2;

pub const INGRESS_DATA: usize = 3;

pub const EGRESS_DATA: usize = 4;

pub const MGMT_ALLOW: usize = 5;

pub const MGMT_PROHIBIT: usize = 6;

pub const TIMER_EXPIRATION: usize = 7;
