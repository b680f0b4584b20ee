// The lines of what is found of constraints.
ghost use Rattle.std.specs.Prelude.{◌≡◌, ◌++◌, IfOk, length, map, true};
ghost use Rattle.query_blocks.specs.Blocks.{scope_of, AreCheckedBlocks};
ghost use Rattle.command_check.specs.Told.{finding_lines, indented, no_text};
ghost use Rattle.command_check.specs.Written.{found_in, text_by};

use crate::finding::CheckAnswer;
use certificate_text::{print_unknown, print_yes};
use constraint_spec::Constraint;
use query_blocks::QueryBlocks;
use query_scoping::ScopedQuery;
use schema::paths_of;
use sd_ddl::write_ddl;
use sd_graph::Graph;
use sd_value::{NoMemory, Str};
use std::alloc::Global;
use token_writer::{put, put_number};

// Appends the text, with two spaces before each of its lines.
fn put_indented(text: &[u8], out: &mut Vec<u8>) -> Result<(), NoMemory>
    ensures { IfOk result (λ _. out.new.items ≡ out.old.items ++ indented true text.now) }
{
    let mut begins = true;
    for byte in text {
        if begins {
            put(b"  ", out)?;
        }
        out.push(*byte)?;
        begins = *byte == b'\n';
    }
    Ok(())
}

// Appends `K no` and the graph.
fn print_no(alloc: Global, number: usize, graph: &Graph, out: &mut Vec<u8>) -> Result<(), NoMemory>
    ensures { IfOk result (λ _. out.new.items ≡ out.old.items ++ no_text number graph.now) }
{
    let mut text = Vec::new(alloc);
    write_ddl(alloc, graph, &mut text)?;
    put_number(number as u128, out)?;
    put(b" no\n", out)?;
    put_indented(&text, out)
}

// Appends the lines of what is found of the constraint of this number. The paths are those of the
// blocks.
fn print_finding(
    alloc: Global,
    blocks: &QueryBlocks,
    paths: &[Str],
    number: usize,
    constraint: &Constraint,
    finding: &CheckAnswer,
    out: &mut Vec<u8>,
) -> Result<(), NoMemory>
    requires paths { length paths.now ≡ length blocks.now.blocks.items }
    requires checked { AreCheckedBlocks blocks.now.version blocks.now.blocks.items }
    ensures { IfOk result (λ _. out.new.items ≡ out.old.items
        ++ text_by blocks.now.version paths.now (scope_of blocks.now).bodies number
        constraint.now (found_in finding.now)) }
{
    match finding {
        CheckAnswer::Yes(certificate) => {
            print_yes(alloc, blocks, paths, number, constraint, certificate, out)
        }
        CheckAnswer::No(graph) => print_no(alloc, number, graph, out),
        CheckAnswer::Unknown => print_unknown(number, out),
    }
}

/// The lines of a query's constraints, of which this is found.
/// # Errors
/// Out of memory.
pub(crate) fn lines_of(
    alloc: Global,
    query: &ScopedQuery,
    constraints: &[Constraint],
    findings: &[CheckAnswer],
) -> Result<Vec<u8>, NoMemory>
    requires { length findings.now ≡ length constraints.now }
    ensures { IfOk result (λ text. text.items
        ≡ finding_lines query.now 1 constraints.now (map found_in findings.now)) }
{
    let blocks = query.blocks();
    let all_paths = paths_of(alloc, &query.query().blocks)?;
    let paths = all_paths.as_slice();
    let mut text = Vec::new(alloc);
    for i in 0..constraints.len() {
        let number = i + 1;
        print_finding(
            alloc,
            blocks,
            paths,
            number,
            &constraints[i],
            &findings[i],
            &mut text,
        )?;
    }
    Ok(text)
}
