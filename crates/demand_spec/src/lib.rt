//! Which questions the templates of a page may ask of its site. Definitions alone.
#![tactic(auto)]
