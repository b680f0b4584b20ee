// The integrity constraints of a file.
ghost use Rattle.std.specs.Prelude.{◌≡◌, ◌∷◌, []};
ghost use Rattle.std.specs.Option.{ForSome};
ghost use Rattle.data_source.specs.Numbered.{Tells};
ghost use Rattle.site_inputs.specs.Reads.{Reads};
ghost use Rattle.site_inputs.specs.Runs.{ReadsHaveCause};
ghost use Rattle.command_check.specs.ConstraintFile.{constraints_told, constraints_result};
ghost use Rattle.command_check.specs.ConstraintFile.{ConstraintsTaken, ConstraintsEnd};

use command_spec::TEXT_LIMIT;
use constraint_spec::Constraint;
use constraints::{ConstraintRefusal, parse_constraints};
use data_source::{NumberedFault, told_of_text};
use edge_io::Files;
use query_scoping::ScopedQuery;
use run_report::Place;
use sd_value::{NoMemory, Str};
use site_inputs::{Fault, read_file, refused};
use std::alloc::Global;

// What a refused text of constraints reports, or out of memory.
fn told_of_constraints(refusal: &ConstraintRefusal) -> Result<NumberedFault, NoMemory>
    ensures { Tells (constraints_told refusal.now) result }
{
    match refusal {
        ConstraintRefusal::Text(refusal) => told_of_text(refusal, 101),
        ConstraintRefusal::UnknownFunction(at) => Ok(NumberedFault {
            number: 102,
            at: *at,
        }),
        ConstraintRefusal::RootHasArguments(at) => Ok(NumberedFault {
            number: 103,
            at: *at,
        }),
    }
}

fn take_constraints(
    alloc: Global,
    query: &ScopedQuery,
    path: &Str,
    bytes: &[u8],
) -> Result<Vec<Constraint>, Fault>
    ensures { ConstraintsTaken query.now path.now bytes.now (constraints_result result) }
{
    match parse_constraints(alloc, bytes, TEXT_LIMIT, query) {
        Ok(constraints) => Ok(constraints),
        Err(refusal) => match told_of_constraints(&refusal) {
            Ok(told) => Err(refused(alloc, path, told.number, Place::At(told.at))),
            Err(NoMemory) => Err(Fault::NoMemory),
        },
    }
}

/// The constraints of a file over a query, in order.
/// # Errors
/// A file of constraints that is refused or unread, or out of memory.
pub fn load_constraints<F: Files>(
    alloc: Global,
    files: &mut F,
    query: &ScopedQuery,
    path: &Str,
) -> Result<Vec<Constraint>, Fault>
    ensures ends { ForSome (F.contents files.old) (λ map.
        ConstraintsEnd query.now map path.now (constraints_result result)) }
    ensures same { F.contents files.new ≡ F.contents files.old }
    ensures cause { ReadsHaveCause (path.now ∷ [])
        (F.failed_reads files.old) (F.failed_reads files.new) result }
    ensures writes { F.failed_writes files.new ≡ F.failed_writes files.old }
    ensures traced { Reads (path.now ∷ [])
        (F.trace files.old) (F.trace files.new) (F.contents files.old) result
        (λ map. ConstraintsEnd query.now map path.now (constraints_result result)) }
{
    let bytes = read_file(alloc, files, path, TEXT_LIMIT)?;
    take_constraints(alloc, query, path, bytes.bytes())
}
