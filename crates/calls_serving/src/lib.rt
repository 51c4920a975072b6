// Each call once it is not refused, on a valid state's image.
#![tactic(auto)]

mod data;
mod frame;
mod management;
mod notice;

pub use frame::serve_frame;
pub use management::{allow_flow, prohibit_flow, restart_at, tick_to};
pub use notice::take_notice;
