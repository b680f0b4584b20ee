// What a constraint says of one page.
ghost use Rattle.std.specs.Prelude.{◌≡◌, ◌↔◌, Contains, IfOk, IsTrue};
ghost use Rattle.sd_value.specs.declared.Value.{Value as AnyValue};
ghost use Rattle.sd_value.specs.declared.Value.TheVariants.{Page};
ghost use Rattle.sd_value.specs.Order.{value_cmp};
ghost use Rattle.sd_value.specs.Ascending.{ListsExactly};
ghost use Rattle.site_spec.specs.Site.{SomeOf};
ghost use Rattle.constraint_spec.specs.Meets.{IsPageOf, LinksTo, LinksOnce};
ghost use Rattle.constraint_report.specs.Links.{function_of, IsMetAt, Agrees, HasReached};

use constraint_spec::Constraint;
use indexmap::IndexSet;
use sd_value::{NoMemory, Str, Term, Value};
use site_view::SiteView;
use std::alloc::Global;

/// Where the links lead from the page by the label, ascending.
pub fn ends<V: SiteView>(
    alloc: Global,
    view: &mut V,
    page: &Term,
    label: &Str,
) -> Result<Vec<Value>, NoMemory>
    requires own { V.Own view.old }
    ensures own { V.Own view.new }
    ensures fixed { V.fixed view.new ≡ V.fixed view.old }
    ensures answer { IfOk result (λ vs. ListsExactly value_cmp
        ((V.site (V.fixed view.old)).edge (Page page.now) label.now) vs.items) }
{
    let page = Value::Page(page.copy(alloc)?);
    let ends = view.out(alloc, &page, label)?;
    Ok(ends)
}

fn is_page_of(value: &Value, function: &Str) -> bool
    ensures { IsTrue result ↔ IsPageOf function.now value.now }
{
    match value {
        Value::Data(_) => false,
        Value::Page(term) => term.function == *function,
    }
}

fn has_page_of(values: &[Value], function: &Str) -> bool
    ensures { IsTrue result ↔ SomeOf (IsPageOf function.now) values.now }
{
    for value in values {
        if is_page_of(value, function) {
            return true;
        }
    }
    false
}

fn are_pages_of(values: &[Value], function: &Str) -> bool
    ensures { IsTrue result ↔ ((v : AnyValue) → Contains values.now v → IsPageOf function.now v) }
{
    for value in values {
        if !is_page_of(value, function) {
            return false;
        }
    }
    true
}

// Whether a link leads from the page by the label to a page of the function.
fn links_to<V: SiteView>(
    alloc: Global,
    view: &mut V,
    page: &Term,
    label: &Str,
    target: &Str,
) -> Result<bool, NoMemory>
    requires own { V.Own view.old }
    ensures own { V.Own view.new }
    ensures fixed { V.fixed view.new ≡ V.fixed view.old }
    ensures answer { IfOk result (λ r. IsTrue r
        ↔ LinksTo (V.site (V.fixed view.old)).has (V.site (V.fixed view.old)).edge
        page.now label.now target.now) }
{
    let ends = ends(alloc, view, page, label)?;
    Ok(has_page_of(ends.as_slice(), target))
}

// Whether all links from the page by the label lead to pages of the function.
fn links_only<V: SiteView>(
    alloc: Global,
    view: &mut V,
    page: &Term,
    label: &Str,
    target: &Str,
) -> Result<bool, NoMemory>
    requires own { V.Own view.old }
    ensures own { V.Own view.new }
    ensures fixed { V.fixed view.new ≡ V.fixed view.old }
    ensures answer { IfOk result (λ r. IsTrue r
        ↔ ((v : AnyValue) → (V.site (V.fixed view.old)).edge (Page page.now) label.now v
        → IsPageOf target.now v)) }
{
    let ends = ends(alloc, view, page, label)?;
    Ok(are_pages_of(ends.as_slice(), target))
}

// Whether no link leads from the page by the label.
fn links_never<V: SiteView>(
    alloc: Global,
    view: &mut V,
    page: &Term,
    label: &Str,
) -> Result<bool, NoMemory>
    requires own { V.Own view.old }
    ensures own { V.Own view.new }
    ensures fixed { V.fixed view.new ≡ V.fixed view.old }
    ensures answer { IfOk result (λ r. IsTrue r
        ↔ ((v : AnyValue) → (V.site (V.fixed view.old)).edge (Page page.now) label.now v → ⊥)) }
{
    let ends = ends(alloc, view, page, label)?;
    Ok(ends.as_slice().is_empty())
}

// Whether exactly one link leads from the page by the label.
fn links_once<V: SiteView>(
    alloc: Global,
    view: &mut V,
    page: &Term,
    label: &Str,
) -> Result<bool, NoMemory>
    requires own { V.Own view.old }
    ensures own { V.Own view.new }
    ensures fixed { V.fixed view.new ≡ V.fixed view.old }
    ensures answer { IfOk result (λ r. IsTrue r
        ↔ LinksOnce (V.site (V.fixed view.old)).has (V.site (V.fixed view.old)).edge
        page.now label.now) }
{
    let ends = ends(alloc, view, page, label)?;
    Ok(ends.as_slice().len() == 1)
}

// Whether the page is as the constraint says of the pages of its function. Where the constraint is one of what links
// reach, these are the pages that they reach.
fn is_met_at<V: SiteView>(
    alloc: Global,
    view: &mut V,
    page: &Term,
    constraint: &Constraint,
    reached: &IndexSet<Term>,
) -> Result<bool, NoMemory>
    requires own { V.Own view.old }
    requires reached { HasReached (V.site (V.fixed view.old)) constraint.now reached.now.keys }
    ensures own { V.Own view.new }
    ensures fixed { V.fixed view.new ≡ V.fixed view.old }
    ensures answer { IfOk result
        (λ r. IsTrue r ↔ IsMetAt (V.site (V.fixed view.old)) constraint.now page.now) }
{
    match constraint {
        Constraint::Reachable { .. } => Ok(reached.contains(page)),
        Constraint::Each { label, target, .. } => links_to(alloc, view, page, label, target),
        Constraint::Only { label, target, .. } => links_only(alloc, view, page, label, target),
        Constraint::Never { label, .. } => links_never(alloc, view, page, label),
        Constraint::One { label, .. } => links_once(alloc, view, page, label),
    }
}

fn function(constraint: &Constraint) -> &Str
    ensures { result.now ≡ function_of constraint.now }
{
    match constraint {
        Constraint::Reachable { function, .. } => function,
        Constraint::Each { function, .. } => function,
        Constraint::Only { function, .. } => function,
        Constraint::Never { function, .. } => function,
        Constraint::One { function, .. } => function,
    }
}

/// Whether the page, if it is one of the constraint's function, is as the constraint says. Where the constraint is one of
/// what links reach, `reached` has the pages that they reach.
pub fn agrees<V: SiteView>(
    alloc: Global,
    view: &mut V,
    page: &Term,
    constraint: &Constraint,
    reached: &IndexSet<Term>,
) -> Result<bool, NoMemory>
    requires own { V.Own view.old }
    requires reached { HasReached (V.site (V.fixed view.old)) constraint.now reached.now.keys }
    ensures own { V.Own view.new }
    ensures fixed { V.fixed view.new ≡ V.fixed view.old }
    ensures answer { IfOk result
        (λ r. IsTrue r ↔ Agrees (V.site (V.fixed view.old)) constraint.now page.now) }
{
    if page.function == *function(constraint) {
        is_met_at(alloc, view, page, constraint, reached)
    } else {
        Ok(true)
    }
}
