// Whether a whole site meets a constraint.
ghost use Rattle.std.specs.Prelude.{◌≡◌, ◌↔◌, IfOk, IsTrue};
ghost use Rattle.std.specs.Option.{option_copied};
ghost use Rattle.constraint_report.specs.Here.{HoldsIn, IsListed};
ghost use Rattle.constraint_report.specs.Links.{root_of, HasReached};

use crate::pages::agrees;
use crate::reach::reached;
use constraint_spec::Constraint;
use indexmap::IndexSet;
use sd_value::{NoMemory, Str, Term};
use site_view::SiteView;
use std::alloc::Global;

// The function of the page from which links are to lead, of a constraint of what they reach.
fn root(constraint: &Constraint) -> Option<&Str>
    ensures { option_copied result ≡ root_of constraint.now }
{
    match constraint {
        Constraint::Reachable { root, .. } => Some(root),
        Constraint::Each { .. } => None,
        Constraint::Only { .. } => None,
        Constraint::Never { .. } => None,
        Constraint::One { .. } => None,
    }
}

// The pages of which a constraint of what links reach asks; of other constraints none.
fn reached_for<V: SiteView>(
    alloc: Global,
    view: &mut V,
    terms: &[Term],
    labels: &[Str],
    constraint: &Constraint,
) -> Result<IndexSet<Term>, NoMemory>
    requires own { V.Own view.old }
    requires listed { IsListed (V.site (V.fixed view.old)) terms.now labels.now }
    ensures own { V.Own view.new }
    ensures fixed { V.fixed view.new ≡ V.fixed view.old }
    ensures reached { IfOk result
        (λ found. HasReached (V.site (V.fixed view.old)) constraint.now found.keys) }
{
    match root(constraint) {
        Some(root) => reached(alloc, view, terms, labels, root),
        None => Ok(IndexSet::new(alloc)),
    }
}

/// Whether the site of the view is as the constraint says. `terms` are the site's terms, and `labels` have all labels of
/// its links. A page of the constraint's function is asked once for its links by the label; for `REACHABLE` each page that
/// links reach is asked once for each label.
/// # Errors
/// Out of memory.
pub fn holds_here<V: SiteView>(
    alloc: Global,
    view: &mut V,
    terms: &[Term],
    labels: &[Str],
    constraint: &Constraint,
) -> Result<bool, NoMemory>
    requires own { V.Own view.old }
    requires listed { IsListed (V.site (V.fixed view.old)) terms.now labels.now }
    ensures own { V.Own view.new }
    ensures fixed { V.fixed view.new ≡ V.fixed view.old }
    ensures answer { IfOk result
        (λ r. IsTrue r ↔ HoldsIn (V.site (V.fixed view.old)) constraint.now) }
{
    let reached = reached_for(alloc, view, terms, labels, constraint)?;
    for page in terms {
        let met = agrees(alloc, view, page, constraint, &reached)?;
        if !met {
            return Ok(false);
        }
    }
    Ok(true)
}
