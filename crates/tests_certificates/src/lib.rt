//! A test of certificates: whether one shows that a query's site meets a constraint over every data
//! graph.
#![tactic(auto)]

ghost use Rattle.std.specs.Prelude.{IfOk};
ghost use Rattle.std.specs.Bool.{Decides};
ghost use Rattle.site_spec.specs.Site.{scope_of as scope_of_query};
ghost use Rattle.constraint_spec.specs.Certificate.{IsCertificate};

#[cfg(test)]
mod checks;
#[cfg(test)]
mod lines;
mod links;
mod names;
mod testing;
mod uses;

use constraint_spec::{Certificate, Constraint};
use inclusion::Inclusions;
use query_scoping::ScopedQuery;
use sd_value::NoMemory;
use std::alloc::Global;
pub use testing::passes_tests;

/// Whether the certificate shows that the query's site meets the constraint over every data graph:
/// true exactly for certificates of the constraint.
pub fn recheck(
    alloc: Global,
    query: &ScopedQuery,
    constraint: &Constraint,
    certificate: &Certificate,
) -> Result<bool, NoMemory>
    ensures { IfOk result (λ b. Decides b
        (IsCertificate (scope_of_query query.now) constraint.now certificate.now)) }
{
    let blocks = query.blocks();
    let table = Inclusions::of(alloc, blocks)?;
    let passes = passes_tests(alloc, &table, blocks, constraint, certificate)?;
    Ok(passes)
}
