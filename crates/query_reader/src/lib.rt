//! A query from bytes: parsed and then checked.
#![tactic(auto)]

ghost use Rattle.std.specs.Prelude.{◌≡◌, ◌<◌, ◌^◌, ℕ, List};
ghost use Rattle.struql_ast.specs.Reading.{query_of};
ghost use Rattle.struql_ast.specs.Written.{query_written};
ghost use Rattle.struql_check.specs.Parsed.{IsParsed};
ghost use Rattle.query_reader.specs.Reads.{Spells, IsWritten, Reads};

mod laws;

pub use laws::a_query_text_has_one_answer;
use std::alloc::Global;
use struql_ast::Query;
use struql_check::{CheckRefusal, Checked, check};
use struql_parse::{ParseRefusal, parse};

/// Why a text is refused as a query: the grammar doesn't spell it, or a check finds a fault.
#[derive(Clone, Copy, Debug, PartialEq, Eq)]
pub enum QueryRefusal {
    NotSpelled(ParseRefusal),
    NotChecked(CheckRefusal),
}

/// The query, with the places of its parts, that a text of at most `limit` bytes spells, whether or not it keeps the
/// checks.
/// # Errors
/// The refusal of the grammar.
pub fn read_written(alloc: Global, bytes: &[u8], limit: u64) -> Result<Query, ParseRefusal>
    requires { limit < 2 ^ 32 }
    ensures { IsWritten limit bytes.now result }
{
    parse(alloc, bytes, limit)
}

/// The query of a written one that keeps all checks.
/// # Errors
/// Its first fault.
pub fn check_written(alloc: Global, query: Query) -> Result<Checked, QueryRefusal>
    requires { IsParsed (query_of query) }
    ensures { (limit : ℕ) (bytes : List ℕ) → Spells limit bytes (query_written query)
        → Reads limit bytes result }
{
    match check(alloc, query) {
        Ok(checked) => Ok(checked),
        Err(refusal) => Err(QueryRefusal::NotChecked(refusal)),
    }
}

/// The query that a text of at most `limit` bytes spells and that keeps all checks. The refusals of the grammar come
/// first, then the first fault.
pub fn read_query(alloc: Global, bytes: &[u8], limit: u64) -> Result<Checked, QueryRefusal>
    requires { limit < 2 ^ 32 }
    ensures { Reads limit bytes.now result }
{
    match read_written(alloc, bytes, limit) {
        Ok(query) => check_written(alloc, query),
        Err(refusal) => Err(QueryRefusal::NotSpelled(refusal)),
    }
}
