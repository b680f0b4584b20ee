//! Addresses of pages, written and read.
#![tactic(auto)]

mod active;
mod argument;
mod laws;
mod named;
mod places;
mod target;
mod written;

pub use active::is_active;
pub use laws::addresses_differ;
pub use named::term_of;
pub use places::{FileRefusal, file_of};
pub use written::{address, hex_digit, push_shown, show};
