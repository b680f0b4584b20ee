// Whether a certificate is one.

ghost use Rattle.std.specs.Prelude.{◌≡◌, ◌&&◌, true, IfOk, map, option_copied};
ghost use Rattle.query_blocks.specs.Blocks.{scope_of, AreCheckedBlocks};
ghost use Rattle.constraint_recheck.specs.Recheck.{zip_all, is_empty, shows as is_shown, shows_reached as is_reached};
ghost use Rattle.constraint_recheck.specs.Recheck.{each_may as each, may_carry, single, determined};
ghost use Rattle.constraint_recheck.specs.Recheck.{recheck as passes};
ghost use Rattle.constraint_spec.specs.Placed.{mentions_of, links_of as links_of_scope};
ghost use Rattle.query_links.specs.Links.{ends_at as ends_there};
ghost use Rattle.query_links.specs.Mentions.{mention_of, HaveChains};
ghost use Rattle.tests_certificates.specs.Links.{AreLinks, ends_at};

use crate::links::links_of;
use crate::uses::{TestedQuery, shows, shows_reached};
use constraint_spec::{Certificate, Constraint, MentionProof};
use entailment::Judge;
use query_blocks::QueryBlocks;
use query_links::{AskedLabel, Mention, each_may, is_single, mentions};
use sd_value::{NoMemory, Str};
use std::alloc::Global;

fn all_reached<J: Judge>(
    alloc: Global,
    tested: &TestedQuery<J>,
    function: &Str,
    root: &Str,
    mentions: &[Mention],
    proofs: &[MentionProof],
) -> Result<bool, NoMemory>
    requires links { AreLinks (scope_of tested.now.query.now) tested.now.links.now }
    requires chains { HaveChains tested.now.query.now.version mentions.now }
    ensures { IfOk result (λ b. b ≡ zip_all (is_reached (J.tests tested.now.judge.now)
        (scope_of tested.now.query.now) function.now root.now) (map mention_of mentions.now)
        proofs.now) }
{
    if mentions.len() != proofs.len() {
        return Ok(false);
    }
    for (place, mention) in mentions.iter().enumerate() {
        let uses = proofs[place].uses();
        if !shows_reached(
            alloc,
            tested,
            mention.chain,
            mention.term,
            function,
            root,
            uses,
        )? {
            return Ok(false);
        }
    }
    Ok(true)
}

fn all_shown<J: Judge>(
    alloc: Global,
    tested: &TestedQuery<J>,
    label: &Str,
    target: Option<&Str>,
    mentions: &[Mention],
    proofs: &[MentionProof],
) -> Result<bool, NoMemory>
    requires links { AreLinks (scope_of tested.now.query.now) tested.now.links.now }
    requires chains { HaveChains tested.now.query.now.version mentions.now }
    ensures { IfOk result (λ b. b ≡ zip_all (is_shown (J.tests tested.now.judge.now)
        (scope_of tested.now.query.now) label.now (ends_at (option_copied target.entry)))
        (map mention_of mentions.now) proofs.now) }
{
    if mentions.len() != proofs.len() {
        return Ok(false);
    }
    for (place, mention) in mentions.iter().enumerate() {
        let uses = proofs[place].uses();
        if !shows(
            alloc,
            tested,
            mention.chain,
            mention.term,
            label,
            target,
            uses,
        )? {
            return Ok(false);
        }
    }
    Ok(true)
}

// Whether the uses show that the root reaches each page of the function.
fn show_each_reached<J: Judge>(
    alloc: Global,
    tested: &TestedQuery<J>,
    function: &Str,
    root: &Str,
    proofs: &[MentionProof],
) -> Result<bool, NoMemory>
    requires links { AreLinks (scope_of tested.now.query.now) tested.now.links.now }
    requires checked { AreCheckedBlocks tested.now.query.now.version
        tested.now.query.now.blocks.items }
    ensures { IfOk result (λ b. b ≡ zip_all (is_reached (J.tests tested.now.judge.now)
        (scope_of tested.now.query.now) function.now root.now)
        (mentions_of (scope_of tested.now.query.now) function.now) proofs.now) }
{
    let mentions = mentions(alloc, tested.query, function)?;
    let reached = all_reached(alloc, tested, function, root, &mentions, proofs)?;
    Ok(reached)
}

// Whether the uses show a link by the label of each page of the function.
fn show_each<J: Judge>(
    alloc: Global,
    tested: &TestedQuery<J>,
    function: &Str,
    label: &Str,
    target: Option<&Str>,
    proofs: &[MentionProof],
) -> Result<bool, NoMemory>
    requires links { AreLinks (scope_of tested.now.query.now) tested.now.links.now }
    requires checked { AreCheckedBlocks tested.now.query.now.version
        tested.now.query.now.blocks.items }
    ensures { IfOk result (λ b. b ≡ zip_all (is_shown (J.tests tested.now.judge.now)
        (scope_of tested.now.query.now) label.now (ends_at (option_copied target.entry)))
        (mentions_of (scope_of tested.now.query.now) function.now) proofs.now) }
{
    let mentions = mentions(alloc, tested.query, function)?;
    let shown = all_shown(alloc, tested, label, target, &mentions, proofs)?;
    Ok(shown)
}

// Whether there are no uses, and each link of the function that may carry the label ends at a term
// of the target; with no target, whether there is no such link.
fn need_none<J: Judge>(
    alloc: Global,
    tested: &TestedQuery<J>,
    function: &Str,
    label: &Str,
    target: Option<&Str>,
    proofs: &[MentionProof],
) -> Result<bool, NoMemory>
    ensures { IfOk result (λ b. b ≡ (is_empty proofs.now && each (J.tests tested.now.judge.now)
        (scope_of tested.now.query.now) function.now label.now
        (ends_there (option_copied target.entry)))) }
{
    if !proofs.is_empty() {
        return Ok(false);
    }
    let label = AskedLabel::new(alloc, label)?;
    let holds = each_may(alloc, tested.judge, tested.query, function, &label, target)?;
    Ok(holds)
}

// Whether the uses show a link by the label of each page of the function, and there is one alone
// that may carry it.
fn show_one<J: Judge>(
    alloc: Global,
    tested: &TestedQuery<J>,
    function: &Str,
    label: &Str,
    proofs: &[MentionProof],
) -> Result<bool, NoMemory>
    requires links { AreLinks (scope_of tested.now.query.now) tested.now.links.now }
    requires checked { AreCheckedBlocks tested.now.query.now.version
        tested.now.query.now.blocks.items }
    ensures { IfOk result (λ b. b ≡ (zip_all (is_shown (J.tests tested.now.judge.now)
        (scope_of tested.now.query.now) label.now (λ k. true))
        (mentions_of (scope_of tested.now.query.now) function.now) proofs.now
        && single (may_carry (J.tests tested.now.judge.now) tested.now.query.now.version
        function.now label.now) determined (links_of_scope (scope_of tested.now.query.now)))) }
{
    let shown = show_each(alloc, tested, function, label, None, proofs)?;
    if !shown {
        return Ok(false);
    }
    let label = AskedLabel::new(alloc, label)?;
    let alone = is_single(alloc, tested.judge, tested.query, function, &label)?;
    Ok(alone)
}

fn passes_by<J: Judge>(
    alloc: Global,
    tested: &TestedQuery<J>,
    constraint: &Constraint,
    proofs: &[MentionProof],
) -> Result<bool, NoMemory>
    requires links { AreLinks (scope_of tested.now.query.now) tested.now.links.now }
    requires checked { AreCheckedBlocks tested.now.query.now.version
        tested.now.query.now.blocks.items }
    ensures { IfOk result (λ b. b ≡ passes (J.tests tested.now.judge.now)
        (scope_of tested.now.query.now) constraint.now proofs.now) }
{
    match constraint {
        Constraint::Reachable { function, root } => {
            show_each_reached(alloc, tested, function, root, proofs)
        }
        Constraint::Each {
            function,
            label,
            target,
        } => show_each(alloc, tested, function, label, Some(target), proofs),
        Constraint::Only {
            function,
            label,
            target,
        } => need_none(alloc, tested, function, label, Some(target), proofs),
        Constraint::Never { function, label } => {
            need_none(alloc, tested, function, label, None, proofs)
        }
        Constraint::One { function, label } => show_one(alloc, tested, function, label, proofs),
    }
}

/// Whether the certificate passes the tests of the constraint on this query, by what the judge says
/// of expressions and constants.
pub fn passes_tests<J: Judge>(
    alloc: Global,
    judge: &J,
    query: &QueryBlocks,
    constraint: &Constraint,
    certificate: &Certificate,
) -> Result<bool, NoMemory>
    requires { AreCheckedBlocks query.now.version query.now.blocks.items }
    ensures { IfOk result (λ b. b ≡ passes (J.tests judge.now) (scope_of query.now) constraint.now
        certificate.now) }
{
    let links = links_of(alloc, query)?;
    let tested = TestedQuery {
        judge,
        query,
        links: &links,
    };
    passes_by(alloc, &tested, constraint, certificate.proofs())
}
