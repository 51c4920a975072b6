// The product: the seven calls over the lent image. The crate tmavolice_c exports them for C.
#![tactic(auto)]

mod answers;
mod entries;
mod make;
mod refusals;

pub use entries::{
    tmavolice_allow, tmavolice_frame, tmavolice_notice, tmavolice_prohibit, tmavolice_restart,
    tmavolice_tick,
};
pub use make::tmavolice_make;
