// A plan's text read into a plan by value.
#![tactic(auto)]

mod additions;
mod fault;
mod ranges;
mod reasons;
mod text;

pub use fault::{Fault, Reason};
pub use text::read_plan;
