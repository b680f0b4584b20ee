// The inputs, each read and decoded before the next.
ghost use Rattle.std.specs.Prelude.{◌≡◌, ◌⊎◌, ◌<◌, ◌^◌, ◌∷◌, [], ℕ, length, Ok, Err, ⊤, Result};
ghost use Rattle.std.specs.Option.{ForSome};
ghost use Rattle.site_inputs.specs.Reads.{Reads};
ghost use Rattle.site_inputs.specs.Runs.{FileEnds, ReadsHaveCause};
ghost use Rattle.site_inputs.specs.Sources.{TextTaken, SourceEnds, FilesEnd, GraphEnds, empty_building};
ghost use Rattle.site_inputs.specs.Sources.{graph_result, with_building};

use crate::fault::{Fault, refused, unread};
use command_spec::{DATA_LIMIT, DataFiles};
use data_source::{SourceRefusal, SourceRules, read_source};
use edge_io::{Files, ReadEnd};
use run_report::Place;
use sd_graph::{Graph, GraphBuilder, PROGRAM_LIMITS};
use sd_value::{NoMemory, Str};
use std::alloc::Global;

/// The bytes of a file of at most this many.
pub fn read_file<F: Files>(
    alloc: Global,
    files: &mut F,
    path: &Str,
    limit: u64,
) -> Result<Str, Fault>
    requires { limit < 2 ^ 63 }
    ensures traced { Reads (path.now ∷ []) (F.trace files.old) (F.trace files.new)
        (F.contents files.old) result
        (λ map. FileEnds limit map path.now result) }
    ensures ends { ForSome (F.contents files.old) (λ map. FileEnds limit map path.now result) }
    ensures same { F.contents files.new ≡ F.contents files.old }
    ensures cause { ReadsHaveCause (path.now ∷ [])
        (F.failed_reads files.old) (F.failed_reads files.new) result }
    ensures writes { F.failed_writes files.new ≡ F.failed_writes files.old }
{
    match files.read(alloc, path, limit + 1) {
        Ok(bytes) => {
            if bytes.len() as u64 > limit {
                return Err(refused(alloc, path, 24, Place::At(limit)));
            }
            Ok(Str::of(alloc, bytes)?)
        }
        Err(ReadEnd::Failed) => Err(unread(alloc, path)),
        Err(ReadEnd::NoMemory) => Err(Fault::NoMemory),
    }
}

// Takes what the bytes of a data file state into the graph, read by the format that the path reports.
fn take_text(
    alloc: Global,
    rules: SourceRules,
    path: &Str,
    bytes: &[u8],
    graph: &mut GraphBuilder,
) -> Result<(), Fault>
    ensures { TextTaken rules path.now graph.old bytes.now (with_building graph.new result) }
{
    match read_source(alloc, rules, path, bytes, DATA_LIMIT, graph) {
        Ok(()) => Ok(()),
        Err(SourceRefusal::Refused { number, place }) => Err(refused(alloc, path, number, place)),
        Err(SourceRefusal::NoMemory) => Err(Fault::NoMemory),
    }
}

// Takes what a data file states into the graph.
fn take_source<F: Files>(
    alloc: Global,
    files: &mut F,
    rules: SourceRules,
    path: &Str,
    graph: &mut GraphBuilder,
) -> Result<(), Fault>
    ensures traced { Reads (path.now ∷ []) (F.trace files.old) (F.trace files.new)
        (F.contents files.old) result
        (λ map. SourceEnds rules map path.now graph.old (with_building graph.new result)) }
    ensures ends { ForSome (F.contents files.old) (λ map.
        SourceEnds rules map path.now graph.old (with_building graph.new result)) }
    ensures same { F.contents files.new ≡ F.contents files.old }
    ensures cause { ReadsHaveCause (path.now ∷ [])
        (F.failed_reads files.old) (F.failed_reads files.new) result }
    ensures writes { F.failed_writes files.new ≡ F.failed_writes files.old }
{
    let bytes = read_file(alloc, files, path, DATA_LIMIT)?;
    take_text(alloc, rules, path, bytes.bytes(), graph)
}

// What the files at these paths state together, gathered.
fn gather_files<F: Files>(
    alloc: Global,
    files: &mut F,
    rules: SourceRules,
    paths: &[Str],
) -> Result<GraphBuilder, Fault>
    ensures traced { Reads paths.now (F.trace files.old) (F.trace files.new)
        (F.contents files.old) result
        (λ map. FilesEnd rules map empty_building paths.now (graph_result result)) }
    ensures ends { ForSome (F.contents files.old) (λ map.
        FilesEnd rules map empty_building paths.now (graph_result result)) }
    ensures same { F.contents files.new ≡ F.contents files.old }
    ensures cause { ReadsHaveCause paths.now
        (F.failed_reads files.old) (F.failed_reads files.new) result }
    ensures writes { F.failed_writes files.new ≡ F.failed_writes files.old }
{
    let mut graph = GraphBuilder::new(alloc, PROGRAM_LIMITS);
    for path in paths {
        take_source(alloc, files, rules, path, &mut graph)?;
    }
    Ok(graph)
}

/// What the data files state together, gathered.
/// # Errors
/// The first file in their order that is refused or unread, or out of memory.
pub(crate) fn gather<F: Files>(
    alloc: Global,
    files: &mut F,
    sources: &DataFiles,
) -> Result<GraphBuilder, Fault>
    ensures traced { Reads sources.now.paths (F.trace files.old) (F.trace files.new)
        (F.contents files.old) result
        (λ map. GraphEnds map empty_building sources.now (graph_result result)) }
    ensures ends { ForSome (F.contents files.old) (λ map.
        GraphEnds map empty_building sources.now (graph_result result)) }
    ensures same { F.contents files.new ≡ F.contents files.old }
    ensures cause { ReadsHaveCause sources.now.paths
        (F.failed_reads files.old) (F.failed_reads files.new) result }
    ensures writes { F.failed_writes files.new ≡ F.failed_writes files.old }
{
    let rules = SourceRules::of(sources.lenient);
    gather_files(alloc, files, rules, sources.paths.items())
}

/// The union of what the data files state.
/// # Errors
/// The first file in their order that is refused or unread, or out of memory.
pub fn load_graph<F: Files>(
    alloc: Global,
    files: &mut F,
    sources: &DataFiles,
) -> Result<Graph, Fault>
    ensures traced { Reads sources.now.paths (F.trace files.old) (F.trace files.new)
        (F.contents files.old) result
        (λ map. GraphEnds map empty_building sources.now result) }
    ensures ends { ForSome (F.contents files.old) (λ map.
        GraphEnds map empty_building sources.now result) }
    ensures same { F.contents files.new ≡ F.contents files.old }
    ensures cause { ReadsHaveCause sources.now.paths
        (F.failed_reads files.old) (F.failed_reads files.new) result }
    ensures writes { F.failed_writes files.new ≡ F.failed_writes files.old }
{
    let gathered = gather(alloc, files, sources)?;
    let graph = gathered.finish(alloc)?;
    Ok(graph)
}
