//! The schema of a query's site, its text and its picture, and the paths of the query's blocks.
#![tactic(auto)]

ghost use Rattle.std.specs.Prelude.{◌≡◌, IfOk};
ghost use Rattle.schema.specs.Rows.{IsSchema};

mod edges;
mod functions;
mod orders;
mod paths;
mod picture;
mod print;
mod starting;

use edges::edges_of;
pub use functions::functions_of;
pub use paths::paths_of;
pub use picture::print_dot;
pub use print::print_schema;
use query_scoping::scopes;
use sd_value::{NoMemory, Str};
use std::alloc::Global;
use struql_check::Checked;

/// A function of the site, with the number of its arguments.
#[derive(Debug)]
pub struct SchemaFunction {
    pub name: Str,
    pub arity: usize,
}

// Written out, so that it is proved here once, and not again in each crate that drops one.
impl Drop for SchemaFunction {
    fn drop(self) {
        let SchemaFunction {
            name: _name,
            arity: _arity,
        } = self;
    }
}

/// A link of the site, with the texts of its parts.
#[derive(Debug)]
pub struct SchemaEdge {
    /// Links are counted from 1 in the order of the query's text.
    pub number: usize,
    /// The path of its block, as `2.1`.
    pub path: Str,
    /// The conditions of its block behind those of all blocks round it, each behind a line feed.
    pub conditions: Str,
    /// The whole link, as `F(x) -> "l" -> y`.
    pub link: Str,
    /// Its label, as `"l"`.
    pub label: Str,
    /// The function of the page at which it starts.
    pub source: SchemaFunction,
    /// The function of the page at which it ends, or none where it ends at a value.
    pub target: Option<SchemaFunction>,
}

// Written out, so that it is proved here once, and not again in each crate that drops one.
impl Drop for SchemaEdge {
    fn drop(self) {
        let SchemaEdge {
            number: _number,
            path: _path,
            conditions: _conditions,
            link: _link,
            label: _label,
            source: _source,
            target: _target,
        } = self;
    }
}

/// The functions, ascending, and the links by the functions at which they start, those of one function by number.
#[derive(Debug)]
pub struct SiteSchema {
    pub functions: Vec<SchemaFunction>,
    pub edges: Vec<SchemaEdge>,
}

// Written out, so that it is proved here once, and not again in each crate that drops one.
impl Drop for SiteSchema {
    fn drop(self) {
        let SiteSchema {
            functions: _functions,
            edges: _edges,
        } = self;
    }
}

/// The schema of a checked query's site.
pub fn schema(alloc: Global, checked: &Checked) -> Result<SiteSchema, NoMemory>
    ensures { IfOk result (IsSchema checked.now) }
{
    let scopes = scopes(alloc, checked)?;
    let paths = paths_of(alloc, &checked.query().blocks)?;
    let functions = functions_of(alloc, &scopes.blocks)?;
    let mut edges = edges_of(alloc, scopes.version, &scopes.blocks, &paths)?;
    edges.sort()?;
    Ok(SiteSchema { functions, edges })
}
