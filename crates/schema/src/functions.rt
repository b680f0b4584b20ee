//! The functions of a query.

ghost use Rattle.std.specs.Prelude.{◌≡◌, ◌++◌, IfOk, map};
ghost use Rattle.std.specs.List.{flat_map};
ghost use Rattle.sd_value.specs.Ascending.{ListsExactly};
ghost use Rattle.struql_ast.specs.Reading.{term_of};
ghost use Rattle.query_blocks.specs.Blocks.{body_of};
ghost use Rattle.schema.specs.Orders.{function_cmp};
ghost use Rattle.schema.specs.Rows.{term_function, body_functions, IsFunctionIn};

use crate::SchemaFunction;
use query_blocks::QueryBlock;
use sd_value::{NoMemory, sort_and_dedup};
use std::alloc::Global;
use struql_ast::SkolemTerm;

/// The function of a term.
pub fn function_of(alloc: Global, term: &SkolemTerm) -> Result<SchemaFunction, NoMemory>
    ensures { IfOk result (λ f. f ≡ term_function (term_of term.now)) }
{
    Ok(SchemaFunction {
        name: term.function.copy(alloc)?,
        arity: term.args.len(),
    })
}

/// Adds the functions of these terms.
fn push_functions(
    alloc: Global,
    terms: &[SkolemTerm],
    found: &mut Vec<SchemaFunction>,
) -> Result<(), NoMemory>
    ensures { IfOk result (λ _. found.new.items
        ≡ found.old.items ++ map term_function (map term_of terms.now)) }
{
    for term in terms {
        found.push(function_of(alloc, term)?)?;
    }
    Ok(())
}

/// The functions of all CREATEs, with repeats.
fn created(alloc: Global, blocks: &[QueryBlock]) -> Result<Vec<SchemaFunction>, NoMemory>
    ensures { IfOk result (λ found. found.items
        ≡ flat_map body_functions (map body_of blocks.now)) }
{
    let mut found = Vec::new(alloc);
    for block in blocks {
        push_functions(alloc, &block.creates, &mut found)?;
    }
    Ok(found)
}

/// The functions that CREATEs name, ascending.
pub fn functions_of(alloc: Global, blocks: &[QueryBlock]) -> Result<Vec<SchemaFunction>, NoMemory>
    ensures { IfOk result (λ found.
        ListsExactly function_cmp (IsFunctionIn (map body_of blocks.now)) found.items) }
{
    let mut found = created(alloc, blocks)?;
    sort_and_dedup(&mut found);
    Ok(found)
}
