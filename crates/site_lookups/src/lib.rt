//! What a site is asked, answered from the data: one question at a time, over any asker.
#![tactic(auto)]

mod all_rows;
mod collects;
mod data_members;
mod linked;
mod named;
mod named_templates;
mod under;
mod wanted;

pub use all_rows::rows_of;
pub use collects::collected;
pub use data_members::{is_member, members, members_chain};
pub use linked::{edges_out, links_out};
pub use named::in_site;
pub use named_templates::{function_template, template};
pub use under::target_under;
