// Images of compiled machines: as bytes, and checked against the tables.
#![tactic(auto)]

mod decoding;
mod encoding;
mod fault;
mod field;
mod finding;
mod image;
mod law;
mod limits;
mod verifying;
mod worked;

pub use decoding::decode;
pub use encoding::encode;
pub use fault::{EncodeError, ImageFault};
pub use finding::Verify;
pub use image::{Head, Image, ImageMachine};
pub use law::laws;
pub use limits::{RESULTS_MAX, VARS_MAX};
pub use verifying::verify;
pub use worked::worked_images;
