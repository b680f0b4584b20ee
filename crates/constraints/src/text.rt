//! The reader of the bytes of constraints.

ghost use Rattle.std.specs.Prelude.{◌≡◌, ℕ, List, IfOk, map};
ghost use Rattle.query_spec.specs.Query.{Query as AnyQuery};
ghost use Rattle.constraints.specs.ConstraintText.{constraint_of};
ghost use Rattle.constraints.specs.Constraints.{Reads, told, HasOneAnswer};
ghost use Rattle.constraints.specs.Names.{FirstFaulty};

use crate::checks::first_fault;
use crate::reading::{Phrase, phrases};
use crate::refusal::{ConstraintRefusal, NameFault};
use constraint_spec::Constraint;
use query_scoping::ScopedQuery;
use schema::functions_of;
use sd_lex::tokens;
use sd_value::{NoMemory, Str};
use std::alloc::Global;
use token_reader::Word;

fn name_of(alloc: Global, word: &Word) -> Result<Str, NoMemory>
    ensures { IfOk result (λ name. name ≡ word.now.text) }
{
    word.text.copy(alloc)
}

fn constraint_of(alloc: Global, phrase: &Phrase) -> Result<Constraint, NoMemory>
    ensures { IfOk result (λ c. c ≡ constraint_of phrase.now) }
{
    match phrase {
        Phrase::Reachable { function, root } => Ok(Constraint::Reachable {
            function: name_of(alloc, function)?,
            root: name_of(alloc, root)?,
        }),
        Phrase::Each {
            function,
            label,
            target,
        } => Ok(Constraint::Each {
            function: name_of(alloc, function)?,
            label: label.copy(alloc)?,
            target: name_of(alloc, target)?,
        }),
        Phrase::Only {
            function,
            label,
            target,
        } => Ok(Constraint::Only {
            function: name_of(alloc, function)?,
            label: label.copy(alloc)?,
            target: name_of(alloc, target)?,
        }),
        Phrase::Never { function, label } => Ok(Constraint::Never {
            function: name_of(alloc, function)?,
            label: label.copy(alloc)?,
        }),
        Phrase::One { function, label } => Ok(Constraint::One {
            function: name_of(alloc, function)?,
            label: label.copy(alloc)?,
        }),
    }
}

fn constraints_of(alloc: Global, phrases: &[Phrase]) -> Result<Vec<Constraint>, NoMemory>
    ensures { IfOk result (λ found. found.items ≡ map constraint_of phrases.now) }
{
    let mut found = Vec::with_capacity(alloc, phrases.len())?;
    for phrase in phrases {
        found.push(constraint_of(alloc, phrase)?)?;
    }
    Ok(found)
}

/// The first fault of the functions that these constraints name.
fn name_fault(
    alloc: Global,
    query: &ScopedQuery,
    phrases: &[Phrase],
) -> Result<Option<NameFault>, NoMemory>
    ensures { IfOk result (FirstFaulty query.now phrases.now) }
{
    let blocks = query.blocks();
    let functions = functions_of(alloc, &blocks.blocks)?;
    Ok(first_fault(&functions, phrases))
}

/// The constraints of a text of at most `limit` bytes over a query, in order:
///
/// ```text
/// constraints := { "REACHABLE" Name "FROM" Name | "EACH" Name "LINKS" Quoted "TO" Name
///                | "ONLY" Name "LINKS" Quoted "TO" Name | "NONE" Name "LINKS" Quoted | "ONE" Name "LINKS" Quoted }
/// ```
///
/// Each Name is that of a function of the query, and one behind FROM has no arguments. A text of more bytes is `TooLong`,
/// one that has no tokens has the lexer's refusal, and one that spells no constraints is `Expected` at the first token such
/// that none begin with the tokens up to and with it, or at its end where more is wanted. Else the first function that is
/// named wrongly is refused: one that stands in no CREATE of the query, or one behind FROM that has arguments.
pub fn parse_constraints(
    alloc: Global,
    bytes: &[u8],
    limit: u64,
    query: &ScopedQuery,
) -> Result<Vec<Constraint>, ConstraintRefusal>
    ensures { Reads query.now limit bytes.now (told result) }
{
    let tokens = tokens(alloc, bytes, limit)?;
    let phrases = phrases(alloc, tokens.as_slice(), bytes.len() as u64)?;
    if let Some(fault) = name_fault(alloc, query, &phrases)? {
        return Err(ConstraintRefusal::from(fault));
    }
    Ok(constraints_of(alloc, &phrases)?)
}

/// The contract of `parse_constraints` admits one answer besides out of memory.
pub fn a_text_has_one_answer()
    ensures { (q : AnyQuery) (limit : ℕ) (bytes : List ℕ) → HasOneAnswer q limit bytes }
{}
