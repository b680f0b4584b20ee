//! The links that start at a function.

ghost use Rattle.std.specs.Prelude.{◌≡◌, IfOk};
ghost use Rattle.std.specs.List.Sorted.{IsSorted};
ghost use Rattle.sd_value.specs.Order.{bytes_cmp};
ghost use Rattle.schema.specs.Orders.{edge_cmp};
ghost use Rattle.schema.specs.Rows.{rows_from};

use crate::SchemaEdge;
use list_lookup::{Query, part};
use sd_value::{NoMemory, Str};
use std::alloc::Global;
use std::cmp::Ordering;

/// The links that start at a function.
#[derive(Debug, Drop)]
struct StartAt<'a> {
    function: &'a Str,
}

impl<'a> Query<SchemaEdge> for StartAt<'a> {
    type Given = usize;

    ghost at = { λ q e. bytes_cmp e.source.name q.function.now };

    ghost gives = { λ e. e.number };

    fn place(&self, item: &SchemaEdge) -> Ordering {
        item.source.name.cmp(self.function)
    }

    fn give(&self, _alloc: Global, item: &SchemaEdge) -> Result<usize, NoMemory> {
        Ok(item.number)
    }
}

/// The links that start at the function, among links that are sorted by the functions at which they start.
pub fn links_from<'a>(edges: &'a [SchemaEdge], function: &Str) -> &'a [SchemaEdge]
    requires { IsSorted edge_cmp edges.now }
    ensures { result.now ≡ rows_from function.now edges.now }
{
    part(edges, &StartAt { function })
}
