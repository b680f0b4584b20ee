//! Files of templates, from bytes.
#![tactic(auto)]

mod body;
mod file;
mod laws;
mod templates;
mod titles;

pub use laws::a_file_of_templates_has_one_answer;
pub use template_layouts::TmplRefusal;
pub use templates::{read_items, read_templates, templates_of};
