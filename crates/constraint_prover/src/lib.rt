//! Whether a query's site meets a constraint over every data graph: a certificate is searched for.
#![tactic(auto)]

ghost use Rattle.std.specs.Prelude.{IfOk};
ghost use Rattle.std.specs.List.{AllZip};
ghost use Rattle.site_spec.specs.Site.{scope_of};
ghost use Rattle.query_blocks.specs.Blocks.{AreCheckedBlocks};
ghost use Rattle.certificate_search.specs.Links.{AreLinks};
ghost use Rattle.constraint_prover.specs.Verdicts.{IsVerdict, AreFound, HoldsOverAll};

mod checked;
mod search;
mod wanted;

use certificate_search::{SearchedQuery, numbered_links};
use checked::certificates_of_checked_queries_hold;
use constraint_spec::{Constraint, Verdict};
use inclusion::Inclusions;
use query_scoping::ScopedQuery;
use sd_value::NoMemory;
use search::find_certificate;
use std::alloc::Global;
use std::slice;

// The verdicts on the constraints over one table.
fn find_all(
    alloc: Global,
    query: &SearchedQuery<Inclusions>,
    constraints: &[Constraint],
) -> Result<Vec<Verdict>, NoMemory>
    requires checked { AreCheckedBlocks query.now.blocks.now.version
        query.now.blocks.now.blocks.items }
    requires links { AreLinks query.now.blocks.now query.now.links.now }
    ensures { IfOk result (λ vs. AreFound query.now.judge.now query.now.blocks.now
        constraints.now vs.items) }
{
    let mut verdicts = Vec::new(alloc);
    for constraint in constraints {
        verdicts.push(find_certificate(alloc, query, constraint)?)?;
    }
    Ok(verdicts)
}

/// For each of the constraints, in order, a certificate, and unknown exactly if there is none, or the search for one would
/// try more than its budget. What is asked of the query alone, above all which of its expressions is included in which, is
/// found out once. What has a certificate is met by the query's site over every data graph.
pub fn prove_all(
    alloc: Global,
    query: &ScopedQuery,
    constraints: &[Constraint],
) -> Result<Vec<Verdict>, NoMemory>
    ensures exact { IfOk result (λ vs.
        AllZip (IsVerdict (scope_of query.now)) constraints.now vs.items) }
    ensures holds { IfOk result (λ vs.
        AllZip (HoldsOverAll (scope_of query.now)) constraints.now vs.items) }
{
    certificates_of_checked_queries_hold();
    let _written = query.query();
    let blocks = query.blocks();
    let judge = Inclusions::of(alloc, blocks)?;
    let links = numbered_links(alloc, blocks)?;
    let searched = SearchedQuery {
        judge: &judge,
        blocks,
        links: &links,
    };
    find_all(alloc, &searched, constraints)
}

/// A certificate of the constraint, and unknown exactly if there is none, or the search for one would try
/// more than its budget. What has a certificate is met by the query's site over every data graph.
pub fn prove(
    alloc: Global,
    query: &ScopedQuery,
    constraint: &Constraint,
) -> Result<Verdict, NoMemory>
    ensures exact { IfOk result (IsVerdict (scope_of query.now) constraint.now) }
    ensures holds { IfOk result (HoldsOverAll (scope_of query.now) constraint.now) }
{
    let mut verdicts = prove_all(alloc, query, slice::from_ref(constraint))?;
    Ok(verdicts.remove(0))
}
