// The lines of an answer.

ghost use Rattle.std.specs.Prelude.{◌≡◌, ◌++◌, IfOk, length, map, codes};
ghost use Rattle.std.specs.List.{flat_map};
ghost use Rattle.struql_print.specs.Texts.{joined, further};
ghost use Rattle.query_blocks.specs.Blocks.{body_of, scope_of, AreCheckedBlocks};
ghost use Rattle.constraint_spec.specs.Placed.{links_of};
ghost use Rattle.certificate_text.specs.Lines.{variables_of_links, mapped_texts, use_text, mention_text};
ghost use Rattle.certificate_text.specs.Lines.{placed_terms, proof_line, proof_lines, function_of as function_named};
ghost use Rattle.certificate_text.specs.Lines.{unknown_text};
ghost use Rattle.certificate_text.specs.Written.{placed_of, yes_text_by};

use crate::terms::{WrittenTerm, terms_of};
use crate::variables::{variables_at, variables_by_link};
use constraint_spec::{Certificate, Constraint, LinkUse, MentionProof};
use query_blocks::QueryBlocks;
use query_spec::Variable;
use sd_value::{NoMemory, Str};
use std::alloc::Global;
use struql_print::print_term;
use token_writer::{put, put_number};

fn put_mapped(variable: &Variable, name: &Str, out: &mut Vec<u8>) -> Result<(), NoMemory>
    ensures { IfOk result (λ _. out.new.items
        ≡ out.old.items ++ (variable.now.name ++ (codes "=" ++ name.now))) }
{
    put(variable.name.bytes(), out)?;
    put(b"=", out)?;
    put(name.bytes(), out)
}

// Appends the pairs, each behind a comma.
fn put_further(variables: &[Variable], names: &[Str], out: &mut Vec<u8>) -> Result<(), NoMemory>
    ensures { IfOk result (λ _. out.new.items
        ≡ out.old.items ++ further (mapped_texts variables.now names.now)) }
{
    let [variable, variables @ ..] = variables else {
        return Ok(());
    };
    let [name, names @ ..] = names else {
        return Ok(());
    };
    put(b", ", out)?;
    put_mapped(variable, name, out)?;
    put_further(variables, names, out)
}

fn put_all_mapped(variables: &[Variable], names: &[Str], out: &mut Vec<u8>) -> Result<(), NoMemory>
    ensures { IfOk result (λ _. out.new.items
        ≡ out.old.items ++ joined (mapped_texts variables.now names.now)) }
{
    let [variable, variables @ ..] = variables else {
        return Ok(());
    };
    let [name, names @ ..] = names else {
        return Ok(());
    };
    put_mapped(variable, name, out)?;
    put_further(variables, names, out)
}

fn put_use(variables: &[&[Variable]], given: &LinkUse, out: &mut Vec<u8>) -> Result<(), NoMemory>
    ensures { IfOk result (λ _. out.new.items
        ≡ out.old.items ++ use_text (map (λ v. v.now) variables.now) given.now) }
{
    put(b" link ", out)?;
    put_number(given.link() as u128, out)?;
    put(b" {", out)?;
    put_all_mapped(variables_at(variables, given.link()), given.names(), out)?;
    put(b"}", out)
}

fn put_uses(variables: &[&[Variable]], uses: &[LinkUse], out: &mut Vec<u8>) -> Result<(), NoMemory>
    ensures { IfOk result (λ _. out.new.items
        ≡ out.old.items ++ flat_map (use_text (map (λ v. v.now) variables.now)) uses.now) }
{
    for given in uses {
        put_use(variables, given, out)?;
    }
    Ok(())
}

fn put_mention(mention: &WrittenTerm, out: &mut Vec<u8>) -> Result<(), NoMemory>
    ensures { IfOk result (λ _. out.new.items
        ≡ out.old.items ++ mention_text (placed_of mention.now)) }
{
    put(b"  ", out)?;
    put(mention.path.bytes(), out)?;
    put(b" ", out)?;
    print_term(mention.term, out)?;
    put(b":", out)
}

// Appends the line of a mention.
fn put_proof(
    variables: &[&[Variable]],
    mention: &WrittenTerm,
    proof: &MentionProof,
    out: &mut Vec<u8>,
) -> Result<(), NoMemory>
    ensures { IfOk result (λ _. out.new.items ≡ out.old.items
        ++ proof_line (map (λ v. v.now) variables.now) (placed_of mention.now) proof.now) }
{
    put_mention(mention, out)?;
    put_uses(variables, proof.uses(), out)?;
    put(b"\n", out)
}

fn put_proofs(
    variables: &[&[Variable]],
    mentions: &[WrittenTerm],
    proofs: &[MentionProof],
    out: &mut Vec<u8>,
) -> Result<(), NoMemory>
    ensures { IfOk result (λ _. out.new.items ≡ out.old.items
        ++ proof_lines (map (λ v. v.now) variables.now) (map placed_of mentions.now) proofs.now) }
{
    for i in 0..proofs.len() {
        if i >= mentions.len() {
            return Ok(());
        }
        put_proof(variables, &mentions[i], &proofs[i], out)?;
    }
    Ok(())
}

fn function_of(constraint: &Constraint) -> &Str
    ensures { result.now ≡ function_named constraint.now }
{
    match constraint {
        Constraint::Reachable { function, root: _ } => function,
        Constraint::Each {
            function,
            label: _,
            target: _,
        } => function,
        Constraint::Only {
            function,
            label: _,
            target: _,
        } => function,
        Constraint::Never { function, label: _ } => function,
        Constraint::One { function, label: _ } => function,
    }
}

fn put_certificate(
    alloc: Global,
    blocks: &QueryBlocks,
    paths: &[Str],
    constraint: &Constraint,
    certificate: &Certificate,
    out: &mut Vec<u8>,
) -> Result<(), NoMemory>
    requires paths { length paths.now ≡ length blocks.now.blocks.items }
    requires checked { AreCheckedBlocks blocks.now.version blocks.now.blocks.items }
    ensures { IfOk result (λ _. out.new.items ≡ out.old.items
        ++ proof_lines (variables_of_links (links_of (scope_of blocks.now)))
        (placed_terms (function_named constraint.now) paths.now (scope_of blocks.now).bodies)
        certificate.now) }
{
    let variables = variables_by_link(alloc, blocks)?;
    let mentions = terms_of(alloc, &blocks.blocks, paths, function_of(constraint))?;
    put_proofs(&variables, &mentions, certificate.proofs(), out)
}

/// Appends that a query's constraint of this number is met over every data graph: `K yes`, and a line
/// for each proof of the certificate, `  PATH TERM:` and per use ` link N {a=b, c=d}`. The paths are
/// those of the blocks. After `NoMemory` what `out` holds is not said.
pub fn print_yes(
    alloc: Global,
    blocks: &QueryBlocks,
    paths: &[Str],
    number: usize,
    constraint: &Constraint,
    certificate: &Certificate,
    out: &mut Vec<u8>,
) -> Result<(), NoMemory>
    requires paths { length paths.now ≡ length blocks.now.blocks.items }
    requires checked { AreCheckedBlocks blocks.now.version blocks.now.blocks.items }
    ensures { IfOk result (λ _. out.new.items ≡ out.old.items
        ++ yes_text_by blocks.now.version paths.now (scope_of blocks.now).bodies number
        constraint.now certificate.now) }
{
    put_number(number as u128, out)?;
    put(b" yes\n", out)?;
    put_certificate(alloc, blocks, paths, constraint, certificate, out)
}

/// Appends that it isn't known of the constraint of this number: `K unknown`. After `NoMemory` what
/// `out` holds is not said.
pub fn print_unknown(number: usize, out: &mut Vec<u8>) -> Result<(), NoMemory>
    ensures { IfOk result (λ _. out.new.items ≡ out.old.items ++ unknown_text number) }
{
    put_number(number as u128, out)?;
    put(b" unknown\n", out)
}
