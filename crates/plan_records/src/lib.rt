// A plan's records by value, in rows: what they hold, and a record put in its place.
#![tactic(auto)]

mod records;
mod row;
mod rows;

pub use records::{
    address_held, flow_numbered, mps_held, no_flow, no_port, none_held, port_numbered, set_held,
};
pub use rows::{flow_put, mps_put, port_put};
