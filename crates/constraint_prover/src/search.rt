// The search for a certificate.

ghost use Rattle.std.specs.Prelude.{◌≡◌, IfOk, Some, [], map};
ghost use Rattle.std.specs.Prelude.{if◌then◌else◌, None};
ghost use Rattle.query_blocks.specs.Blocks.{scope_of, AreCheckedBlocks};
ghost use Rattle.query_links.specs.Mentions.{mention_of, HaveChains};
ghost use Rattle.constraint_spec.specs.Placed.{mentions_of};
ghost use Rattle.constraint_recheck.specs.Options.{for_each};
ghost use Rattle.constraint_recheck.specs.Search.{find_certificate as certificate_found};
ghost use Rattle.certificate_search.specs.Links.{AreLinks};
ghost use Rattle.constraint_prover.specs.Verdicts.{certificate_in};
ghost use Rattle.constraint_prover.specs.Wanted.{shown_by};

use crate::wanted::{Wanted, show};
use certificate_search::SearchedQuery;
use constraint_spec::{Certificate, Constraint, Verdict};
use entailment::Judge;
use query_links::{AskedLabel, Mention, each_may, is_single, mentions};
use sd_value::{NoMemory, Str};
use std::alloc::Global;

// The proofs for all mentions, if each has one.
fn show_all<J: Judge>(
    alloc: Global,
    query: &SearchedQuery<J>,
    wanted: &Wanted,
    found: &[Mention],
) -> Result<Verdict, NoMemory>
    requires chains { HaveChains query.now.blocks.now.version found.now }
    requires links { AreLinks query.now.blocks.now query.now.links.now }
    ensures { IfOk result (λ v. certificate_in v ≡ for_each (shown_by (J.tests query.now.judge.now)
        (scope_of query.now.blocks.now) wanted.now) (map mention_of found.now)) }
{
    let mut proofs = Vec::new(alloc);
    for mention in found {
        let Some(proof) = show(alloc, query, wanted, mention)? else {
            return Ok(Verdict::Unknown);
        };
        proofs.push(proof)?;
    }
    Ok(Verdict::Yes(Certificate::new(proofs)))
}

fn show_function<J: Judge>(
    alloc: Global,
    query: &SearchedQuery<J>,
    wanted: &Wanted,
    function: &Str,
) -> Result<Verdict, NoMemory>
    requires checked { AreCheckedBlocks query.now.blocks.now.version
        query.now.blocks.now.blocks.items }
    requires links { AreLinks query.now.blocks.now query.now.links.now }
    ensures { IfOk result (λ v. certificate_in v ≡ for_each (shown_by (J.tests query.now.judge.now)
        (scope_of query.now.blocks.now) wanted.now)
        (mentions_of (scope_of query.now.blocks.now) function.now)) }
{
    let found = mentions(alloc, query.blocks, function)?;
    show_all(alloc, query, wanted, &found)
}

// Yes with no use, where nothing else is to be shown.
fn without_uses(alloc: Global, holds: bool) -> Verdict
    ensures { certificate_in result ≡ if holds then Some [] else None }
{
    if holds {
        Verdict::Yes(Certificate::new(Vec::new(alloc)))
    } else {
        Verdict::Unknown
    }
}

/// A certificate of the constraint, if there is one.
pub fn find_certificate<J: Judge>(
    alloc: Global,
    query: &SearchedQuery<J>,
    constraint: &Constraint,
) -> Result<Verdict, NoMemory>
    requires checked { AreCheckedBlocks query.now.blocks.now.version
        query.now.blocks.now.blocks.items }
    requires links { AreLinks query.now.blocks.now query.now.links.now }
    ensures { IfOk result (λ v. certificate_in v ≡ certificate_found (J.tests query.now.judge.now)
        (scope_of query.now.blocks.now) constraint.now) }
{
    let blocks = query.blocks;
    match constraint {
        Constraint::Reachable { function, root } => {
            show_function(alloc, query, &Wanted::Root(function, root), function)
        }
        Constraint::Each {
            function,
            label,
            target,
        } => show_function(alloc, query, &Wanted::Link(label, Some(target)), function),
        Constraint::Only {
            function,
            label,
            target,
        } => {
            let label = AskedLabel::new(alloc, label)?;
            let holds = each_may(alloc, query.judge, blocks, function, &label, Some(target))?;
            Ok(without_uses(alloc, holds))
        }
        Constraint::Never { function, label } => {
            let label = AskedLabel::new(alloc, label)?;
            let holds = each_may(alloc, query.judge, blocks, function, &label, None)?;
            Ok(without_uses(alloc, holds))
        }
        Constraint::One { function, label } => {
            let asked = AskedLabel::new(alloc, label)?;
            if !is_single(alloc, query.judge, blocks, function, &asked)? {
                return Ok(Verdict::Unknown);
            }
            show_function(alloc, query, &Wanted::Link(label, None), function)
        }
    }
}
