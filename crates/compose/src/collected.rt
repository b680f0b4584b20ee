// What is collected, as members of a site's graph.
ghost use Rattle.std.specs.Prelude.{◌≡◌};
ghost use Rattle.site_spec.specs.Site.{SomeOf};
ghost use Rattle.compose.specs.Adding.{AddsAll};
ghost use Rattle.compose.specs.Stated.{IsPutAs, IsPutIn, IsPut};

use crate::names::encoded;
use sd_graph::{GraphBuilder, GraphRefusal};
use sd_value::{Datum, Str, Value};
use site_view::SiteView;
use std::alloc::Global;

// Adds the value, if it is a node or a page.
fn add_value(
    alloc: Global,
    builder: &mut GraphBuilder,
    collection: &Str,
    value: &Value,
) -> Result<(), GraphRefusal>
    ensures { AddsAll (IsPutAs collection.now value.now) builder.old builder.new result }
{
    let datum = encoded(alloc, value)?;
    match &datum {
        Datum::Node(name) => builder.add_member(alloc, collection, name),
        Datum::Int(_) => Ok(()),
        Datum::Text(_) => Ok(()),
        Datum::Url(_) => Ok(()),
        Datum::File(_) => Ok(()),
    }
}

// Adds those of the values that are nodes or pages.
fn add_values(
    alloc: Global,
    builder: &mut GraphBuilder,
    collection: &Str,
    values: &[Value],
) -> Result<(), GraphRefusal>
    ensures { AddsAll (λ s. SomeOf (λ v. IsPutAs collection.now v s) values.now)
        builder.old builder.new result }
{
    for value in values {
        add_value(alloc, builder, collection, value)?;
    }
    Ok(())
}

// Adds what is collected under the name.
fn add_collection<V: SiteView>(
    alloc: Global,
    view: &mut V,
    builder: &mut GraphBuilder,
    collection: &Str,
) -> Result<(), GraphRefusal>
    requires own { V.Own view.old }
    ensures own { V.Own view.new }
    ensures fixed { V.fixed view.new ≡ V.fixed view.old }
    ensures added { AddsAll (IsPutIn (V.site (V.fixed view.old)) collection.now)
        builder.old builder.new result }
{
    let values = view.collected(alloc, collection)?;
    add_values(alloc, builder, collection, values.as_slice())
}

/// Adds what is collected under any of the names.
pub fn add_collections<V: SiteView>(
    alloc: Global,
    view: &mut V,
    builder: &mut GraphBuilder,
    collections: &[Str],
) -> Result<(), GraphRefusal>
    requires own { V.Own view.old }
    ensures own { V.Own view.new }
    ensures fixed { V.fixed view.new ≡ V.fixed view.old }
    ensures added { AddsAll (IsPut (V.site (V.fixed view.old)) collections.now)
        builder.old builder.new result }
{
    for collection in collections {
        add_collection(alloc, view, builder, collection)?;
    }
    Ok(())
}
