// Is this a valid state's image? One pass over the lent octets.
#![tactic(auto)]

mod image;
mod sessions;

pub use image::{is_image, is_valid};
