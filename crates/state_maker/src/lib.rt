// The image of a plan, made on the lent octets.
#![tactic(auto)]

mod image;

pub use image::make_image;
