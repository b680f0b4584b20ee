//! Texts put together from stretches of bytes and from texts before them.
#![tactic(auto)]

mod draft;
mod writing;

pub use draft::{Draft, Fragment, Numbered, keep};
pub use writing::written;
