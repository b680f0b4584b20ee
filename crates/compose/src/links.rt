// The links of pages, as edges of a site's graph.
ghost use Rattle.std.specs.Prelude.{◌≡◌};
ghost use Rattle.site_spec.specs.Site.{SomeOf};
ghost use Rattle.compose.specs.Adding.{AddsAll};
ghost use Rattle.compose.specs.Stated.{link_from, IsLinkBy, IsLinkOf, IsLink};

use crate::edges::add_link;
use crate::names::page_name;
use sd_graph::{GraphBuilder, GraphRefusal};
use sd_value::{Str, Term, Value};
use site_view::SiteView;
use std::alloc::Global;

// Adds an edge to each of the values.
fn add_ends(
    alloc: Global,
    builder: &mut GraphBuilder,
    from: &Str,
    label: &Str,
    ends: &[Value],
) -> Result<(), GraphRefusal>
    ensures { AddsAll (λ s. SomeOf (λ v. link_from from.now label.now v ≡ s) ends.now)
        builder.old builder.new result }
{
    for end in ends {
        add_link(alloc, builder, from, label, end)?;
    }
    Ok(())
}

// Adds the links from the page, whose address is `name`, by the label.
fn add_links_by<V: SiteView>(
    alloc: Global,
    view: &mut V,
    builder: &mut GraphBuilder,
    page: &Value,
    name: &Str,
    label: &Str,
) -> Result<(), GraphRefusal>
    requires own { V.Own view.old }
    ensures own { V.Own view.new }
    ensures fixed { V.fixed view.new ≡ V.fixed view.old }
    ensures added { AddsAll (IsLinkBy (V.site (V.fixed view.old)) page.now name.now label.now)
        builder.old builder.new result }
{
    let ends = view.out(alloc, page, label)?;
    add_ends(alloc, builder, name, label, ends.as_slice())
}

// Adds the links from the page, whose address is `name`, by any of the labels.
fn add_links_under<V: SiteView>(
    alloc: Global,
    view: &mut V,
    builder: &mut GraphBuilder,
    page: &Value,
    name: &Str,
    labels: &[Str],
) -> Result<(), GraphRefusal>
    requires own { V.Own view.old }
    ensures own { V.Own view.new }
    ensures fixed { V.fixed view.new ≡ V.fixed view.old }
    ensures added { AddsAll
        (λ s. SomeOf (λ label. IsLinkBy (V.site (V.fixed view.old)) page.now name.now label s)
        labels.now) builder.old builder.new result }
{
    for label in labels {
        add_links_by(alloc, view, builder, page, name, label)?;
    }
    Ok(())
}

// Adds the links from the page by any of the labels.
fn add_links_of<V: SiteView>(
    alloc: Global,
    view: &mut V,
    builder: &mut GraphBuilder,
    page: &Term,
    labels: &[Str],
) -> Result<(), GraphRefusal>
    requires own { V.Own view.old }
    ensures own { V.Own view.new }
    ensures fixed { V.fixed view.new ≡ V.fixed view.old }
    ensures added { AddsAll (IsLinkOf (V.site (V.fixed view.old)) labels.now page.now)
        builder.old builder.new result }
{
    let name = page_name(alloc, page)?;
    let copy = page.copy(alloc)?;
    let page = Value::Page(copy);
    add_links_under(alloc, view, builder, &page, &name, labels)
}

/// Adds the links from the pages by any of the labels. Each page is asked once for each label.
pub fn add_links<V: SiteView>(
    alloc: Global,
    view: &mut V,
    builder: &mut GraphBuilder,
    pages: &[Term],
    labels: &[Str],
) -> Result<(), GraphRefusal>
    requires own { V.Own view.old }
    ensures own { V.Own view.new }
    ensures fixed { V.fixed view.new ≡ V.fixed view.old }
    ensures added { AddsAll (IsLink (V.site (V.fixed view.old)) pages.now labels.now)
        builder.old builder.new result }
{
    for page in pages {
        add_links_of(alloc, view, builder, page, labels)?;
    }
    Ok(())
}
