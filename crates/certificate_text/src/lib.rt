//! The lines that say of a constraint whether it is met over every data graph, with the certificate
//! that shows it.
#![tactic(auto)]

ghost use Rattle.std.specs.Prelude.{◌≡◌, [], map};
ghost use Rattle.sd_value.specs.Names.{Name};
ghost use Rattle.query_spec.specs.Query.{Query, blocks_in_scope};
ghost use Rattle.site_spec.specs.Site.{scope_of};
ghost use Rattle.site_spec.specs.Paths.{paths_from};
ghost use Rattle.constraint_spec.specs.Placed.{mentions_of};
ghost use Rattle.certificate_text.specs.Lines.{placed_terms};

mod print;
mod terms;
mod variables;

pub use print::{print_unknown, print_yes};

/// The terms that the lines of a certificate name are those of the function's mentions, in their
/// order.
pub fn lines_name_the_mentions()
    ensures { (q : Query) (f : Name)
        → map (λ m. m.term) (placed_terms f (paths_from [] 1 q.blocks) (blocks_in_scope q))
        ≡ map (λ m. m.term) (mentions_of (scope_of q) f) }
{}
