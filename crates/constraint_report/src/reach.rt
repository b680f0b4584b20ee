// The pages that links reach from a root page.
ghost use Rattle.std.specs.Prelude.{◌≡◌, ◌↔◌, [], Contains, IfOk, OnOk};
ghost use Rattle.sd_value.specs.declared.Value.TheVariants.{Page};
ghost use Rattle.constraint_spec.specs.Meets.{root_page};
ghost use Rattle.site_spec.specs.Site.{SomeOf};
ghost use Rattle.constraint_report.specs.Here.{IsListed};
ghost use Rattle.constraint_report.specs.Links.{Adds, IsNext, IsNextBy, AreReached, IsBegun};

use crate::pages::ends;
use indexmap::IndexSet;
use sd_value::{Args, NoMemory, Str, Term, Value};
use site_view::SiteView;
use std::alloc::Global;

// Adds the value, if it is a page and wasn't there.
fn add_page(alloc: Global, found: &mut IndexSet<Term>, value: &Value) -> Result<(), NoMemory>
    ensures { OnOk result (Adds (λ t. value.now ≡ Page t) found.old.keys found.new.keys) }
{
    match value {
        Value::Data(_) => Ok(()),
        Value::Page(page) => {
            let page = page.copy(alloc)?;
            found.insert(page)?;
            Ok(())
        }
    }
}

// Adds the pages among the values, each once.
fn add_pages(alloc: Global, found: &mut IndexSet<Term>, values: &[Value]) -> Result<(), NoMemory>
    ensures { OnOk result
        (Adds (λ t. SomeOf (λ v. v ≡ Page t) values.now) found.old.keys found.new.keys) }
{
    for value in values {
        add_page(alloc, found, value)?;
    }
    Ok(())
}

// Adds the pages to which links by the label lead from the page.
fn add_ends<V: SiteView>(
    alloc: Global,
    view: &mut V,
    page: &Term,
    label: &Str,
    found: &mut IndexSet<Term>,
) -> Result<(), NoMemory>
    requires own { V.Own view.old }
    ensures own { V.Own view.new }
    ensures fixed { V.fixed view.new ≡ V.fixed view.old }
    ensures added { OnOk result
        (Adds (IsNext (V.site (V.fixed view.old)) page.now label.now)
        found.old.keys found.new.keys) }
{
    let ends = ends(alloc, view, page, label)?;
    add_pages(alloc, found, ends.as_slice())?;
    Ok(())
}

// Adds the pages to which links by any of the labels lead from the page.
fn add_next<V: SiteView>(
    alloc: Global,
    view: &mut V,
    labels: &[Str],
    page: &Term,
    found: &mut IndexSet<Term>,
) -> Result<(), NoMemory>
    requires own { V.Own view.old }
    ensures own { V.Own view.new }
    ensures fixed { V.fixed view.new ≡ V.fixed view.old }
    ensures added { OnOk result
        (Adds (IsNextBy (V.site (V.fixed view.old)) labels.now page.now)
        found.old.keys found.new.keys) }
{
    for label in labels {
        add_ends(alloc, view, page, label, found)?;
    }
    Ok(())
}

fn root_of(alloc: Global, function: &Str) -> Result<Term, NoMemory>
    ensures { IfOk result (λ t. t ≡ root_page function.now) }
{
    let function = function.copy(alloc)?;
    let args = Args::new(alloc, Vec::new(alloc))?;
    Ok(Term { function, args })
}

// The root page alone, if it is in the site, with room for this many pages.
fn begin<V: SiteView>(
    alloc: Global,
    view: &mut V,
    most: usize,
    root: &Str,
) -> Result<IndexSet<Term>, NoMemory>
    requires own { V.Own view.old }
    ensures own { V.Own view.new }
    ensures fixed { V.fixed view.new ≡ V.fixed view.old }
    ensures begun { IfOk result
        (λ found. IsBegun (V.site (V.fixed view.old)) root.now found.keys) }
{
    let mut found = IndexSet::with_capacity(alloc, most)?;
    let root = root_of(alloc, root)?;
    if view.in_site(alloc, &root)? {
        found.insert(root)?;
    }
    Ok(found)
}

/// The pages that links reach from the root page, in the order in which a search comes to them: it follows the links of
/// each page once.
pub fn reached<V: SiteView>(
    alloc: Global,
    view: &mut V,
    terms: &[Term],
    labels: &[Str],
    root: &Str,
) -> Result<IndexSet<Term>, NoMemory>
    requires own { V.Own view.old }
    requires listed { IsListed (V.site (V.fixed view.old)) terms.now labels.now }
    ensures own { V.Own view.new }
    ensures fixed { V.fixed view.new ≡ V.fixed view.old }
    ensures reached { IfOk result
        (λ found. AreReached (V.site (V.fixed view.old)) root.now found.keys) }
{
    let mut found = begin(alloc, view, terms.len(), root)?;
    let mut next = 0;
    'pages: while next < found.len() {
        let pages = found.as_slice();
        let page = pages[next].copy(alloc)?;
        add_next(alloc, view, labels, &page, &mut found)?;
        next += 1;
    }
    Ok(found)
}
