//! Pages over any view of a site.
#![tactic(auto)]

mod choices;
mod compares;
mod expansion;
mod html;
mod laws;
mod order;
mod page;
mod pieces;
mod rows;
mod values;
mod written;

pub use laws::{one_outcome, written_texts_open_no_tag};
pub use page::render;
