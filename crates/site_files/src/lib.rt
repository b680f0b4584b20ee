//! Writes the pages of a site as files.
#![tactic(auto)]

mod index;
mod pages;
mod paths;
mod written;

pub use pages::write_pages;
pub use written::write_site;
