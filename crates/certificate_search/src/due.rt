// What the variable that was mapped last decides.

ghost use Rattle.std.specs.Prelude.{◌≡◌, IfOk, map, option_copied, option_map};
ghost use Rattle.std.specs.List.{list_all};
ghost use Rattle.struql_ast.specs.Reading.{operand_of, condition_of, term_of, target_of, link_of};
ghost use Rattle.query_spec.specs.Mentions.{operand_names, names as names_of};
ghost use Rattle.constraint_spec.specs.Use.{rename_operand};
ghost use Rattle.constraint_spec.specs.Use.{name_for as mapped_name};
ghost use Rattle.query_parts.specs.Same.{same_operand};
ghost use Rattle.constraint_recheck.specs.Recheck.{zip_all};
ghost use Rattle.constraint_recheck.specs.Search.{due_arg, due_same, ends_fit, due_condition};
ghost use Rattle.constraint_recheck.specs.Search.{depth as depth_of, may_go_on};
ghost use Rattle.certificate_search.specs.LinkDepths.{operand_depths, end_depths, condition_depths};
ghost use Rattle.certificate_search.specs.LinkDepths.{depths_of};

use crate::renaming::{name_for, renamed};
use crate::search::Search;
use entailment::{Judge, is_entailed};
use query_spec::Variable;
use sd_value::{NoMemory, Str};
use std::alloc::Global;
use struql_ast::{Condition, Operand, SkolemTerm, Target};

// Whether the condition with its variables renamed is entailed, if the last variable decides it.
fn fits_condition<J: Judge>(
    alloc: Global,
    search: &Search<J>,
    names: &[Str],
    condition: &Condition,
    depth: usize,
) -> Result<bool, NoMemory>
    requires { depth ≡ depth_of search.now.variables.now (names_of (condition_of condition.now)) }
    ensures { IfOk result (λ b. b ≡ due_condition search.now.variables.now
        (J.tests search.now.judge.now) search.now.version (map condition_of search.now.given.now)
        names.now (condition_of condition.now)) }
{
    if depth != names.len() {
        return Ok(true);
    }
    let renamed = renamed(alloc, search.variables, names, condition)?;
    Ok(is_entailed(search.judge, search.version, search.given, &renamed))
}

// Whether each condition that the last variable decides is entailed.
fn fit_conditions<J: Judge>(
    alloc: Global,
    search: &Search<J>,
    depths: &[usize],
    names: &[Str],
) -> Result<bool, NoMemory>
    requires { depths.now ≡ condition_depths search.now.variables.now
        (map condition_of search.now.conditions.now) }
    ensures { IfOk result (λ b. b ≡ list_all (due_condition search.now.variables.now
        (J.tests search.now.judge.now) search.now.version (map condition_of search.now.given.now)
        names.now) (map condition_of search.now.conditions.now)) }
{
    for (place, condition) in search.conditions.iter().enumerate() {
        if !fits_condition(alloc, search, names, condition, depths[place])? {
            return Ok(false);
        }
    }
    Ok(true)
}

// Whether the operand with its variable renamed is the other.
fn is_renamed(variables: &[Variable], names: &[Str], operand: &Operand, other: &Operand) -> bool
    ensures { result ≡ same_operand
        (rename_operand (mapped_name variables.now names.now) (operand_of operand.now))
        (operand_of other.now) }
{
    match operand {
        Operand::Variable(x, _) => match other {
            Operand::Variable(y, _) => name_for(variables, names, x) == y,
            Operand::Constant(_, _) => false,
        },
        Operand::Constant(v, _) => match other {
            Operand::Variable(_, _) => false,
            Operand::Constant(w, _) => v == w,
        },
    }
}

// Whether the argument of a link's end is the other operand, if the last variable decides it.
fn fits_arg(
    variables: &[Variable],
    names: &[Str],
    operand: &Operand,
    depth: usize,
    other: &Operand,
) -> bool
    requires { depth ≡ depth_of variables.now (operand_names (operand_of operand.now)) }
    ensures { result
        ≡ due_arg variables.now names.now (operand_of operand.now) (operand_of other.now) }
{
    depth != names.len() || is_renamed(variables, names, operand, other)
}

// Whether the arguments of a link's end that the last variable decides are those of a term.
fn fit_args(
    variables: &[Variable],
    names: &[Str],
    operands: &[Operand],
    depths: &[usize],
    others: &[Operand],
) -> bool
    requires { depths.now ≡ operand_depths variables.now (map operand_of operands.now) }
    ensures { result ≡ zip_all (due_arg variables.now names.now)
        (map operand_of operands.now) (map operand_of others.now) }
{
    if operands.len() != others.len() {
        return false;
    }
    for (place, operand) in operands.iter().enumerate() {
        if !fits_arg(variables, names, operand, depths[place], &others[place]) {
            return false;
        }
    }
    true
}

// Whether the link's end is the term, as far as the last variable decides it.
fn fits_end(
    variables: &[Variable],
    names: &[Str],
    end: &Target,
    depths: &[usize],
    term: &SkolemTerm,
) -> bool
    requires { depths.now ≡ end_depths variables.now (target_of end.now) }
    ensures { result ≡ due_same variables.now (target_of end.now) (term_of term.now) names.now }
{
    match end {
        Target::Plain(_) | Target::Summed(_, _) => false,
        Target::Made(made) => {
            made.function == term.function
                && fit_args(variables, names, &made.args, depths, &term.args)
        }
    }
}

// Whether the link's ends are the terms that are asked for, as far as the last variable decides it.
fn fit_ends<J>(search: &Search<J>, names: &[Str]) -> bool
    requires { search.now.depths.now ≡ depths_of search.now.variables.now
        (map condition_of search.now.conditions.now) (link_of search.now.link.now) }
    ensures { result ≡ ends_fit search.now.variables.now (link_of search.now.link.now)
        (term_of search.now.source.now)
        (option_map term_of (option_copied search.now.target)) names.now }
{
    let link = search.link;
    let depths = search.depths;
    fits_end(
        search.variables,
        names,
        &link.source,
        depths.source(),
        search.source,
    ) && match search.target {
        None => true,
        Some(term) => fits_end(search.variables, names, &link.target, depths.target(), term),
    }
}

/// Whether nothing that the last variable decides is against the names. The ends are tested first,
/// which takes no memory.
pub fn goes_on<J: Judge>(alloc: Global, search: &Search<J>, names: &[Str]) -> Result<bool, NoMemory>
    requires { search.now.depths.now ≡ depths_of search.now.variables.now
        (map condition_of search.now.conditions.now) (link_of search.now.link.now) }
    ensures { IfOk result (λ b. b ≡ may_go_on search.now.variables.now
        (J.tests search.now.judge.now) search.now.version (map condition_of search.now.given.now)
        (map condition_of search.now.conditions.now) (link_of search.now.link.now)
        (term_of search.now.source.now) (option_map term_of (option_copied search.now.target))
        names.now) }
{
    if !fit_ends(search, names) {
        return Ok(false);
    }
    fit_conditions(alloc, search, search.depths.conditions(), names)
}
