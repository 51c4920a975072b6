// A recorded shift: the lines of a log run on the image, each answered by a line, and input cut into lines as it arrives.
#![tactic(auto)]

mod cut;
mod making;
mod serve;
mod steps;

pub use cut::keep;
pub use making::make_unit;
pub use serve::{Turn, serve_lines};
pub use steps::{OUT_ROOM, step};
