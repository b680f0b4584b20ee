//! The functions that constraints name.

ghost use Rattle.std.specs.Prelude.{◌≡◌};
ghost use Rattle.std.specs.List.{flat_map};
ghost use Rattle.std.specs.List.Sorted.{IsStrictlySortedBy};
ghost use Rattle.schema.specs.Orders.{function_cmp};
ghost use Rattle.constraints.specs.Names.{names_in};
ghost use Rattle.constraints.specs.Known.{has_arguments, fault_from, first_from};

use crate::reading::Phrase;
use crate::refusal::NameFault;
use constraint_spec::Constraint;
use list_lookup::{Query, part};
use schema::SchemaFunction;
use sd_value::{NoMemory, Str};
use std::alloc::Global;
use std::cmp::Ordering;
use token_reader::Word;

/// The functions of a name.
#[derive(Debug, Drop)]
struct HasName<'a> {
    name: &'a Str,
}

impl<'a> Query<SchemaFunction> for HasName<'a> {
    type Given = usize;

    ghost use Rattle.sd_value.specs.Order.{bytes_cmp};

    ghost at = { λ q f. bytes_cmp f.name q.name.now };

    ghost gives = { λ f. f.arity };

    fn place(&self, item: &SchemaFunction) -> Ordering {
        item.name.cmp(self.name)
    }

    fn give(&self, _alloc: Global, item: &SchemaFunction) -> Result<usize, NoMemory> {
        Ok(item.arity)
    }
}

/// Whether one of the functions has arguments.
fn some_has_arguments(functions: &[SchemaFunction]) -> bool
    ensures { result ≡ has_arguments functions.now }
{
    functions.iter().any(|f| f.arity > 0)
}

/// The fault of a name, which may stand behind FROM.
fn fault_of(functions: &[SchemaFunction], word: &Word, is_root: bool) -> Option<NameFault>
    requires { IsStrictlySortedBy function_cmp functions.now }
    ensures { result ≡ fault_from functions.now (record { word = word.now; is_root = is_root }) }
{
    let named = part(functions, &HasName { name: &word.text });
    if named.is_empty() {
        return Some(NameFault::Unknown(word.place));
    }
    if is_root && some_has_arguments(named) {
        return Some(NameFault::HasArguments(word.place));
    }
    None
}

/// The first fault of the names of a constraint.
fn phrase_fault(functions: &[SchemaFunction], phrase: &Phrase) -> Option<NameFault>
    requires { IsStrictlySortedBy function_cmp functions.now }
    ensures { result ≡ first_from functions.now (names_in phrase.now) }
{
    match phrase {
        Phrase::Reachable { function, root } => {
            let first = fault_of(functions, function, false);
            first.or(fault_of(functions, root, true))
        }
        Phrase::Each {
            function,
            target,
            ..
        }
        | Phrase::Only {
            function,
            target,
            ..
        } => {
            let first = fault_of(functions, function, false);
            first.or(fault_of(functions, target, false))
        }
        Phrase::Never { function, .. } | Phrase::One { function, .. } => {
            fault_of(functions, function, false)
        }
    }
}

/// The first fault of the names of these constraints.
pub fn first_fault(functions: &[SchemaFunction], phrases: &[Phrase]) -> Option<NameFault>
    requires { IsStrictlySortedBy function_cmp functions.now }
    ensures { result ≡ first_from functions.now (flat_map names_in phrases.now) }
{
    for phrase in phrases {
        if let Some(fault) = phrase_fault(functions, phrase) {
            return Some(fault);
        }
    }
    None
}
