//! Files of templates split into items: text, tags and what is in a tag.
#![tactic(auto)]

mod item;
mod scanning;

pub use item::{Item, ItemKind, Mark};
pub use scanning::{begins_tag, is_blank, items};
