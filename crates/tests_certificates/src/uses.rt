// Whether uses show a constraint of one mention.

ghost use Rattle.std.specs.Prelude.{◌≡◌, ◌&&◌, IfOk, map, option_map, option_copied};
ghost use Rattle.query_spec.specs.Query.{made as a_term};
ghost use Rattle.query_spec.specs.Mentions.{variables_of as own_variables};
ghost use Rattle.query_blocks.specs.Blocks.{scope_of};
ghost use Rattle.struql_ast.specs.Reading.{term_of, label_of};
ghost use Rattle.constraint_spec.specs.Use.{rename_target, naming};
ghost use Rattle.query_parts.specs.Same.{same_target};
ghost use Rattle.constraint_recheck.specs.Recheck.{is_quoted, is_use as makes_use, use_from as is_use_from};
ghost use Rattle.constraint_recheck.specs.Recheck.{shows as is_shown, lead_back, shows_reached as is_reached};
ghost use Rattle.tests_certificates.specs.Links.{placed_link, HasOwnVariables, AreLinks, ends_at, mention_of, shown_on};
ghost use Rattle.tests_certificates.specs.Back.{made_term, back_on, back_from};

use crate::links::{QueryLink, link_at};
use crate::names::{is_renamed, is_use};
use certificate_search::renamed_term;
use constraint_spec::LinkUse;
use entailment::{Judge, is_root};
use query_blocks::QueryBlocks;
use query_parts::copied_term;
use query_spec::Variable;
use sd_value::{NoMemory, Str};
use std::alloc::Global;
use struql_ast::{Chain, Link, LinkLabel, SkolemTerm, Target};

/// A query, its links by number, and what its expressions are to one another.
#[derive(Drop)]
pub struct TestedQuery<'a, J> {
    pub judge: &'a J,
    pub query: &'a QueryBlocks,
    pub links: &'a [QueryLink<'a>],
}

fn variables_of<'a>(link: &'a QueryLink) -> &'a [Variable]
    requires { HasOwnVariables link.now.chain.now }
    ensures { result.now ≡ own_variables (placed_link link.now).conditions }
{
    link.chain.variables()
}

fn has_label(link: &Link, label: &Str) -> bool
    ensures { result ≡ is_quoted label.now (label_of link.now.label) }
{
    match &link.label {
        LinkLabel::Quoted(quoted) => quoted == label,
        LinkLabel::Variable(_, _) => false,
    }
}

// Whether the link ends at a term of the function, if one is asked for.
fn has_end(link: &QueryLink, function: Option<&Str>) -> bool
    ensures { result ≡ ends_at (option_copied function.entry) (placed_link link.now) }
{
    match function {
        None => true,
        Some(function) => match &link.link.target {
            Target::Plain(_) | Target::Summed(_, _) => false,
            Target::Made(term) => term.function == *function,
        },
    }
}

fn starts_at(
    alloc: Global,
    link: &QueryLink,
    names: &[Str],
    term: &SkolemTerm,
) -> Result<bool, NoMemory>
    requires { HasOwnVariables link.now.chain.now }
    ensures { IfOk result (λ b. b ≡ same_target (rename_target (naming (placed_link link.now)
        names.now) (placed_link link.now).link.source) (a_term (term_of term.now))) }
{
    is_renamed(alloc, variables_of(link), names, &link.link.source, term)
}

fn ends_at_term(
    alloc: Global,
    link: &QueryLink,
    names: &[Str],
    term: &SkolemTerm,
) -> Result<bool, NoMemory>
    requires { HasOwnVariables link.now.chain.now }
    ensures { IfOk result (λ b. b ≡ same_target (rename_target (naming (placed_link link.now)
        names.now) (placed_link link.now).link.target) (a_term (term_of term.now))) }
{
    is_renamed(alloc, variables_of(link), names, &link.link.target, term)
}

fn source_of(alloc: Global, link: &QueryLink, names: &[Str]) -> Result<Option<SkolemTerm>, NoMemory>
    requires { HasOwnVariables link.now.chain.now }
    ensures { IfOk result (λ r. option_map term_of r ≡ made_term (rename_target (naming
        (placed_link link.now) names.now) (placed_link link.now).link.source)) }
{
    match &link.link.source {
        Target::Plain(_) | Target::Summed(_, _) => Ok(None),
        Target::Made(term) => {
            let term = renamed_term(alloc, variables_of(link), names, term)?;
            Ok(Some(term))
        }
    }
}

// Whether the use of this link shows a link by the label from the term.
fn shows_on<J: Judge>(
    alloc: Global,
    judge: &J,
    version: u8,
    given: &Chain,
    term: &SkolemTerm,
    label: &Str,
    target: Option<&Str>,
    link: &QueryLink,
    names: &[Str],
) -> Result<bool, NoMemory>
    requires given { HasOwnVariables given.now }
    requires link { HasOwnVariables link.now.chain.now }
    ensures { IfOk result (λ b. b ≡ shown_on (J.tests judge.now) version given.now.conditions
        (term_of term.now) label.now (ends_at (option_copied target.entry)) names.now
        (placed_link link.now)) }
{
    if !is_use(alloc, judge, version, given, link, names)? {
        return Ok(false);
    }
    if !has_label(link.link, label) {
        return Ok(false);
    }
    if !starts_at(alloc, link, names, term)? {
        return Ok(false);
    }
    Ok(has_end(link, target))
}

/// Whether the use is one of a link by the label from the term, to a term of the target if one is
/// asked for.
pub fn is_shown_by<J: Judge>(
    alloc: Global,
    tested: &TestedQuery<J>,
    given: &Chain,
    term: &SkolemTerm,
    label: &Str,
    target: Option<&Str>,
    step: &LinkUse,
) -> Result<bool, NoMemory>
    requires given { HasOwnVariables given.now }
    requires links { AreLinks (scope_of tested.now.query.now) tested.now.links.now }
    ensures { IfOk result (λ b. b ≡ is_use_from (J.tests tested.now.judge.now)
        (scope_of tested.now.query.now) label.now (mention_of given.now term.now) step.now
        (ends_at (option_copied target.entry))) }
{
    let Some(link) = link_at(tested.links, step.link()) else {
        return Ok(false);
    };
    let shown = shows_on(
        alloc,
        tested.judge,
        tested.query.version,
        given,
        term,
        label,
        target,
        link,
        step.names(),
    )?;
    Ok(shown)
}

/// Whether it is one use that is so.
pub fn shows<J: Judge>(
    alloc: Global,
    tested: &TestedQuery<J>,
    given: &Chain,
    term: &SkolemTerm,
    label: &Str,
    target: Option<&Str>,
    uses: &[LinkUse],
) -> Result<bool, NoMemory>
    requires given { HasOwnVariables given.now }
    requires links { AreLinks (scope_of tested.now.query.now) tested.now.links.now }
    ensures { IfOk result (λ b. b ≡ is_shown (J.tests tested.now.judge.now)
        (scope_of tested.now.query.now) label.now (ends_at (option_copied target.entry))
        (mention_of given.now term.now) uses.now) }
{
    let [first, further @ ..] = uses else {
        return Ok(false);
    };
    if !further.is_empty() {
        return Ok(false);
    }
    let shown = is_shown_by(alloc, tested, given, term, label, target, first)?;
    Ok(shown)
}

// The source of the use of this link, if it is a use and ends at the term.
fn back_over<J: Judge>(
    alloc: Global,
    judge: &J,
    version: u8,
    given: &Chain,
    term: &SkolemTerm,
    step: &LinkUse,
    link: &QueryLink,
) -> Result<Option<SkolemTerm>, NoMemory>
    requires given { HasOwnVariables given.now }
    requires link { HasOwnVariables link.now.chain.now }
    ensures { IfOk result (λ r. option_map term_of r ≡ back_on (J.tests judge.now) version
        given.now.conditions step.now (term_of term.now) (placed_link link.now)) }
{
    if !is_use(alloc, judge, version, given, link, step.names())? {
        return Ok(None);
    }
    if !ends_at_term(alloc, link, step.names(), term)? {
        return Ok(None);
    }
    let source = source_of(alloc, link, step.names())?;
    Ok(source)
}

// The term from which the use leads to the term.
fn step_back<J: Judge>(
    alloc: Global,
    tested: &TestedQuery<J>,
    given: &Chain,
    term: &SkolemTerm,
    step: &LinkUse,
) -> Result<Option<SkolemTerm>, NoMemory>
    requires given { HasOwnVariables given.now }
    requires links { AreLinks (scope_of tested.now.query.now) tested.now.links.now }
    ensures { IfOk result (λ r. option_map term_of r ≡ back_from (J.tests tested.now.judge.now)
        (scope_of tested.now.query.now) given.now.conditions step.now (term_of term.now)) }
{
    let Some(link) = link_at(tested.links, step.link()) else {
        return Ok(None);
    };
    let source = back_over(
        alloc,
        tested.judge,
        tested.query.version,
        given,
        term,
        step,
        link,
    )?;
    Ok(source)
}

/// Whether the uses lead back from the term to the root.
pub fn leads_back<J: Judge>(
    alloc: Global,
    tested: &TestedQuery<J>,
    given: &Chain,
    term: &SkolemTerm,
    root: &Str,
    uses: &[LinkUse],
) -> Result<bool, NoMemory>
    requires given { HasOwnVariables given.now }
    requires links { AreLinks (scope_of tested.now.query.now) tested.now.links.now }
    ensures { IfOk result (λ b. b ≡ lead_back (J.tests tested.now.judge.now)
        (scope_of tested.now.query.now) root.now given.now.conditions (term_of term.now)
        uses.now) }
{
    let mut at = copied_term(alloc, term)?;
    for step in uses {
        match step_back(alloc, tested, given, &at, step)? {
            None => return Ok(false),
            Some(source) => at = source,
        }
    }
    Ok(is_root(&at, root))
}

/// Whether the uses show that the root reaches the term.
pub fn shows_reached<J: Judge>(
    alloc: Global,
    tested: &TestedQuery<J>,
    given: &Chain,
    term: &SkolemTerm,
    function: &Str,
    root: &Str,
    uses: &[LinkUse],
) -> Result<bool, NoMemory>
    requires given { HasOwnVariables given.now }
    requires links { AreLinks (scope_of tested.now.query.now) tested.now.links.now }
    ensures { IfOk result (λ b. b ≡ is_reached (J.tests tested.now.judge.now)
        (scope_of tested.now.query.now) function.now root.now (mention_of given.now term.now)
        uses.now) }
{
    if uses.len() > tested.links.len() {
        return Ok(false);
    }
    if function == root && !uses.is_empty() {
        return Ok(false);
    }
    let leads = leads_back(alloc, tested, given, term, root, uses)?;
    Ok(leads)
}
