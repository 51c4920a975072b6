// The state's image rewritten in place, on the lent octets.
#![tactic(auto)]

mod head;
mod row;
mod session;
mod sessions;

pub use head::{set_allowed, set_clock};
pub use session::{put_session, remove_session};
pub use sessions::{clear_sessions, sweep_sessions};
