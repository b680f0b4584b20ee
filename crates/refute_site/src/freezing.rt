// Data graphs in which the conditions of a chain are frozen: what they ask for of values that its
// variables are given.
ghost use Rattle.std.specs.Prelude.{◌≡◌};
ghost use Rattle.counterexample_spec.specs.Frozen.{stated};
ghost use Rattle.refute_site.specs.Adding.{AddsAll};
ghost use Rattle.refute_site.specs.Patterns.{pattern_of, HasItsVariables};

use crate::conditions::add_conditions;
use crate::statements::add_values;
use crate::values::values_of;
use sd_graph::{GraphBuilder, GraphRefusal};
use sd_value::Str;
use std::alloc::Global;
use struql_ast::{Chain, Operand};

/// An arc variable, and the label that it is to be.
#[derive(Clone, Copy)]
pub(crate) struct LabelSet<'a> {
    pub variable: &'a Str,
    pub label: &'a Str,
}

/// Which copy of a chain is made.
#[derive(Clone, Copy)]
pub(crate) enum ChainCopy<'a> {
    /// One that stands alone.
    First,
    /// One beside the first, which shares the variables among these operands.
    Second(&'a [Operand]),
}

/// A chain that is to be frozen.
#[derive(Clone, Copy)]
pub(crate) struct Pattern<'a> {
    pub chain: &'a Chain,
    /// The label that a variable is set to, if it is.
    pub set: Option<LabelSet<'a>>,
    pub copy: ChainCopy<'a>,
    /// Whether what may be repeated in a path is taken once, or else left out.
    pub repeats: bool,
}

/// Adds what the chain asks for to the graph that is built.
/// # Errors
/// Those of the builder. The graph then has some part of it. Too many come exactly if it would have too
/// many with all of it.
pub(crate) fn freeze(
    alloc: Global,
    builder: &mut GraphBuilder,
    pattern: &Pattern,
) -> Result<(), GraphRefusal>
    requires { HasItsVariables pattern.now }
    ensures { AddsAll (stated (pattern_of pattern.now)) builder.old builder.new result }
{
    let values = values_of(alloc, pattern)?;
    add_values(alloc, builder, &values)?;
    add_conditions(alloc, builder, pattern, &values)
}
