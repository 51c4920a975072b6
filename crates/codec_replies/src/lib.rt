// The message layer, written: replies and loops.
#![tactic(auto)]

use codec::Status;

mod answer;
mod reply;

pub use answer::put_reply_frame;
pub use reply::{put_bare, put_head, put_looped};

// What a reply says: its level, message type, code, port address and status.
#[derive(Clone, Copy)]
pub struct ReplyFields {
    pub level: u8,
    pub kind: u8,
    pub code: u8,
    pub port: u64,
    pub status: Status,
}
