// Numbers in network order, and runs of octets. Knows no protocol.
#![tactic(auto)]

mod low;
mod moves;
mod number;
mod run;

pub use low::{low2, low4, low6, low8, put_low4};
pub use moves::{clear, move_down, move_up};
pub use number::{number2, number4, number6, octets2, octets4, octets6};
pub use run::{all_zero, copy_into, put_at, same_octets};
