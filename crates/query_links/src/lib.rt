//! What constraints ask of a query's text: where terms of a function are written, and which links
//! of a function may carry a label.
#![tactic(auto)]

mod carriers;
mod determined;
mod labels;
mod written;

pub use carriers::{each_may, is_single};
pub use labels::{AskedLabel, may_carry};
pub use written::{Mention, mentions};
