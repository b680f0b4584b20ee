//! The variables of the blocks round a place, and whether they are arc variables.

ghost use Rattle.std.specs.Prelude.{◌≡◌, ◌||◌, ◌∷◌, [], ℕ, List, IfOk};
ghost use Rattle.std.specs.BTreeMap as tree;
ghost use Rattle.sd_value.specs.Order.{bytes_cmp};
ghost use Rattle.struql_check.specs.Scope.{sort_of, is_arc_role};

use crate::mentions::{Role, VariableUse};
use sd_value::{NoMemory, Str};
use std::alloc::Global;
use std::collections::BTreeMap;
use std::marker::Model;

/// The variables of one block's own conditions.
#[derive(Drop)]
pub(crate) struct Level {
    mentions: Vec<VariableUse>,
    /// Each of them, and whether it is between arrows.
    variables: BTreeMap<Str, bool>,
}

impl Model for Level {
    ghost use Rattle.std.specs.Prelude.{List};
    ghost use Rattle.struql_check.specs.declared.mentions.VariableUse.{VariableUse as Seen};

    ghost Value = { List Seen };

    ghost use Rattle.std.specs.Prelude.{◌≡◌, ◌∷◌, [], ℕ};
    ghost use Rattle.std.specs.BTreeMap as tree;
    ghost use Rattle.sd_value.specs.Order.{bytes_cmp};
    ghost use Rattle.struql_check.specs.Scope.{sort_of};

    ghost view = { λ l. l.mentions.items };

    ghost invariant = { λ l. (x : List ℕ)
        → tree.get bytes_cmp l.variables x ≡ sort_of (l.mentions.items ∷ []) x };
}

fn is_arc_role(role: Role) -> bool
    ensures { result ≡ is_arc_role role }
{
    matches!(role, Role::Arc)
}

/// Whether a variable is between arrows, given whether it did before.
fn or_arc(before: bool, role: Role) -> bool
    ensures { result ≡ (before || is_arc_role role) }
{
    before || is_arc_role(role)
}

/// Each variable, and whether it is between arrows.
fn sorts_of(alloc: Global, mentions: &[VariableUse]) -> Result<BTreeMap<Str, bool>, NoMemory>
    ensures { IfOk result (λ sorts. (x : List ℕ)
        → tree.get bytes_cmp sorts x ≡ sort_of (mentions.now ∷ []) x) }
{
    let mut sorts = BTreeMap::new(alloc);
    for mention in mentions {
        let before = sorts.get(&mention.name).copied().unwrap_or(false);
        let name = mention.name.copy(alloc)?;
        sorts.insert(name, or_arc(before, mention.role))?;
    }
    Ok(sorts)
}

impl Level {
    /// The level of a block with these mentions in its conditions.
    pub(crate) fn new(alloc: Global, mentions: Vec<VariableUse>) -> Result<Level, NoMemory>
        ensures { IfOk result (λ level. level ≡ mentions.items) }
    {
        let variables = sorts_of(alloc, &mentions)?;
        Ok(Level {
            mentions,
            variables,
        })
    }

    /// The mentions in the block's conditions.
    pub(crate) fn mentions(&self) -> &[VariableUse]
        ensures { result.now ≡ self.now }
    {
        self.mentions.as_slice()
    }

    /// Whether the variable is an arc variable, if the block mentions it.
    fn sort(&self, name: &Str) -> Option<bool>
        ensures { result ≡ sort_of (self.now ∷ []) name.now }
    {
        self.variables.get(name).copied()
    }
}

/// Whether the variable is an arc variable, if one of the blocks mentions it: the outermost that
/// does decides.
pub(crate) fn sort_of(levels: &[Level], name: &Str) -> Option<bool>
    ensures { result ≡ sort_of levels.now name.now }
{
    for level in levels {
        if let Some(is_arc) = level.sort(name) {
            return Some(is_arc);
        }
    }
    None
}
