//! The variables of a chain, counted up to the limit.

ghost use Rattle.std.specs.Prelude.{◌≡◌, ◌++◌, ◌∷◌, [], List, IfOk};
ghost use Rattle.std.specs.List.{list_any};
ghost use Rattle.query_spec.specs.Mentions.{same_name};
ghost use Rattle.struql_check.specs.Known.{AreNames};
ghost use Rattle.struql_check.specs.declared.mentions.VariableUse.{VariableUse};

use crate::mentions::VariableUse;
use sd_value::{NoMemory, Str};
use std::alloc::Global;

/// The most variables that a chain may have.
const MOST_VARIABLES: usize = 32;

/// The variables of a chain.
#[derive(Drop)]
pub enum Names {
    /// All of them, by first mention.
    Few(Vec<Str>),
    /// Where one more than the limit is.
    Many(u64),
}

fn is_known(known: &[Str], name: &Str) -> bool
    ensures { result ≡ list_any (same_name name.now) known.now }
{
    known.iter().any(|other| name == other)
}

fn copied(alloc: Global, names: &[Str]) -> Result<Vec<Str>, NoMemory>
    ensures { IfOk result (λ copy. copy.items ≡ names.now) }
{
    let mut copy = Vec::new(alloc);
    for name in names {
        copy.push(name.copy(alloc)?)?;
    }
    Ok(copy)
}

fn one_more(alloc: Global, names: Names, mention: &VariableUse) -> Result<Names, NoMemory>
    ensures { IfOk result (λ more. (ms : List VariableUse) → AreNames ms names
        → AreNames (ms ++ mention.now ∷ []) more) }
{
    match names {
        Names::Few(mut known) => {
            if is_known(&known, &mention.name) {
                Ok(Names::Few(known))
            } else if known.len() < MOST_VARIABLES {
                known.push(mention.name.copy(alloc)?)?;
                Ok(Names::Few(known))
            } else {
                Ok(Names::Many(mention.at))
            }
        }
        Names::Many(at) => Ok(Names::Many(at)),
    }
}

/// No variables.
pub(crate) fn no_names(alloc: Global) -> Names
    ensures { AreNames [] result }
{
    Names::Few(Vec::new(alloc))
}

/// The variables of a chain whose last mentions are these.
pub(crate) fn with_mentions(
    alloc: Global,
    before: &Names,
    mentions: &[VariableUse],
) -> Result<Names, NoMemory>
    ensures { IfOk result (λ more. (ms : List VariableUse) → AreNames ms before.now
        → AreNames (ms ++ mentions.now) more) }
{
    let mut names = match before {
        Names::Few(known) => Names::Few(copied(alloc, known)?),
        Names::Many(at) => Names::Many(*at),
    };
    for mention in mentions {
        names = one_more(alloc, names, mention)?;
    }
    Ok(names)
}
