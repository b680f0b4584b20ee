//! Inclusion of path expressions: whether each word of one is a word of another; and the table of
//! the inclusions between a query's expressions, made once.
//!
//! Words range over all labels. Where the first expression takes any label, it takes one that the
//! second doesn't name, and there only a wildcard of the second fits. So the search is over
//! positions alone, and makes no label.
#![tactic(auto)]

ghost use Rattle.std.specs.Prelude.{◌≤◌, ◌↔◌, IsTrue, IfOk, MatchOption};
ghost use Rattle.rpe.specs.Language.{InLanguage, positions};
ghost use Rattle.rpe.specs.Reading.{regex_of};
ghost use Rattle.constraint_spec.specs.Entailed.{IsIncluded};
ghost use Rattle.inclusion.specs.Inclusion.{HasEachWord};

mod expressions;
mod known_expressions;
mod masks;
mod search;
mod spelled;
mod table;
mod twins;

use expressions::automaton_of;
pub use expressions::{MAX_SEARCHED, is_searched};
use query_parts::same_rpe;
use rpe::Rpe;
use sd_value::{NoMemory, Str};
use std::alloc::Global;
pub use table::Inclusions;

/// Whether each word of `a` is a word of `b`, where both have at most 16 positions; else whether
/// they are the same expression.
pub fn included(alloc: Global, a: &Rpe, b: &Rpe) -> Result<bool, NoMemory>
    ensures { IfOk result (λ yes. IsTrue yes ↔ IsIncluded (regex_of a.now) (regex_of b.now)) }
{
    if !is_searched(a) || !is_searched(b) {
        return Ok(same_rpe(a, b));
    }
    let missing = missing_word(alloc, a, b)?;
    Ok(missing.is_none())
}

/// A word of `a` that isn't a word of `b`, or none where each is. Where any label will do, it has
/// one that `b` doesn't name.
pub fn missing_word(alloc: Global, a: &Rpe, b: &Rpe) -> Result<Option<Vec<Str>>, NoMemory>
    requires small_a { positions (regex_of a.now) ≤ 16 }
    requires small_b { positions (regex_of b.now) ≤ 16 }
    ensures { IfOk result
        (λ found. MatchOption found (HasEachWord (regex_of a.now) (regex_of b.now))
        (λ word. InLanguage (regex_of a.now) word.items
        × ¬ (InLanguage (regex_of b.now) word.items))) }
{
    let a = automaton_of(alloc, a)?;
    let b = automaton_of(alloc, b)?;
    search::missing_word(alloc, &a, &b)
}
