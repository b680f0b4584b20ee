//! Operands, terms, links and collections.

ghost use Rattle.std.specs.Prelude.{◌≡◌, ◌++◌, IfOk, ℕ, List, map};
ghost use Rattle.struql_ast.specs.Reading.{operand_of, term_of, aggregate_of, target_of, label_of, link_of, collect_of};
ghost use Rattle.struql_print.specs.Texts.{joined, value_text, operand_text, term_text, target_text, label_text, link_text, collect_text};
ghost use Rattle.struql_print.specs.Texts.{applied, aggregate_text};
ghost use Rattle.query_spec.specs.Query.{sum_of};

use crate::collections::print_collection;
use crate::listed::{Print, print_listed};
use sd_value::{Datum, NoMemory, Str, Value};
use struql_ast::{Aggregate, Collect, Link, LinkLabel, Operand, SkolemTerm, Target};
use token_writer::{put, put_int, put_quoted};

// Terms and links are printed alike in each version.
const ANY_VERSION: u8 = 1;

impl Print for Value {
    ghost text = { λ _. value_text };

    fn print(&self, _version: u8, out: &mut Vec<u8>) -> Result<(), NoMemory> {
        match self {
            Value::Data(Datum::Int(n)) => put_int(*n, out),
            Value::Data(Datum::Text(text)) => put_quoted(text.bytes(), out),
            Value::Data(Datum::Url(text)) => put_quoted(text.bytes(), out),
            Value::Data(Datum::File(text)) => put_quoted(text.bytes(), out),
            Value::Data(Datum::Node(text)) => put_quoted(text.bytes(), out),
            Value::Page(term) => put_quoted(term.function.bytes(), out),
        }
    }
}

impl Print for Operand {
    ghost text = { λ _ t. operand_text (operand_of t) };

    fn print(&self, version: u8, out: &mut Vec<u8>) -> Result<(), NoMemory> {
        match self {
            Operand::Variable(name, _) => put(name.bytes(), out),
            Operand::Constant(value, _) => value.print(version, out),
        }
    }
}

/// Appends the arguments of a term.
fn print_arguments(version: u8, args: &[Operand], out: &mut Vec<u8>) -> Result<(), NoMemory>
    ensures { IfOk result (λ _. out.new.items
        ≡ out.old.items ++ joined (map operand_text (map operand_of args.now))) }
{
    print_listed(version, args, out)
}

impl Print for SkolemTerm {
    ghost text = { λ _ t. term_text (term_of t) };

    fn print(&self, version: u8, out: &mut Vec<u8>) -> Result<(), NoMemory> {
        put(self.function.bytes(), out)?;
        put(b"(", out)?;
        print_arguments(version, self.args.as_slice(), out)?;
        put(b")", out)
    }
}

/// Appends a term's canonical text, as `F(x, 1, "a")`. After `NoMemory` what `out` holds is not
/// said.
pub fn print_term(term: &SkolemTerm, out: &mut Vec<u8>) -> Result<(), NoMemory>
    ensures { IfOk result (λ _. out.new.items ≡ out.old.items ++ term_text (term_of term.now)) }
{
    term.print(ANY_VERSION, out)
}

fn print_applied(function: &[u8], name: &Str, out: &mut Vec<u8>) -> Result<(), NoMemory>
    ensures { IfOk result (λ _. out.new.items ≡ out.old.items ++ applied function.now name.now) }
{
    put(function, out)?;
    put(b"(", out)?;
    put(name.bytes(), out)?;
    put(b")", out)
}

fn print_sum(value: &Str, key: &Str, out: &mut Vec<u8>) -> Result<(), NoMemory>
    ensures { IfOk result (λ _. out.new.items
        ≡ out.old.items ++ aggregate_text (sum_of value.now key.now)) }
{
    put(b"sum(", out)?;
    put(value.bytes(), out)?;
    put(b" OF ", out)?;
    put(key.bytes(), out)?;
    put(b")", out)
}

fn print_aggregate(aggregate: &Aggregate, out: &mut Vec<u8>) -> Result<(), NoMemory>
    ensures { IfOk result (λ _. out.new.items
        ≡ out.old.items ++ aggregate_text (aggregate_of aggregate.now)) }
{
    match aggregate {
        Aggregate::Count(name, _) => print_applied(b"count", name, out),
        Aggregate::Min(name, _) => print_applied(b"min", name, out),
        Aggregate::Max(name, _) => print_applied(b"max", name, out),
        Aggregate::Sum { value, key, .. } => print_sum(value, key, out),
    }
}

fn print_target(target: &Target, out: &mut Vec<u8>) -> Result<(), NoMemory>
    ensures { IfOk result (λ _. out.new.items
        ≡ out.old.items ++ target_text (target_of target.now)) }
{
    match target {
        Target::Plain(operand) => operand.print(ANY_VERSION, out),
        Target::Made(term) => term.print(ANY_VERSION, out),
        Target::Summed(aggregate, _) => print_aggregate(aggregate, out),
    }
}

fn print_label(label: &LinkLabel, out: &mut Vec<u8>) -> Result<(), NoMemory>
    ensures { IfOk result (λ _. out.new.items ≡ out.old.items ++ label_text (label_of label.now)) }
{
    match label {
        LinkLabel::Quoted(text) => put_quoted(text.bytes(), out),
        LinkLabel::Variable(name, _) => put(name.bytes(), out),
    }
}

/// Appends a link's canonical text, as `F(x) -> "l" -> y`. After `NoMemory` what `out` holds is
/// not said.
pub fn print_link(link: &Link, out: &mut Vec<u8>) -> Result<(), NoMemory>
    ensures { IfOk result (λ _. out.new.items ≡ out.old.items ++ link_text (link_of link.now)) }
{
    print_target(&link.source, out)?;
    put(b" -> ", out)?;
    print_label(&link.label, out)?;
    put(b" -> ", out)?;
    print_target(&link.target, out)
}

impl Print for Link {
    ghost text = { λ _ k. link_text (link_of k) };

    fn print(&self, _version: u8, out: &mut Vec<u8>) -> Result<(), NoMemory> {
        print_link(self, out)
    }
}

impl Print for Collect {
    ghost text = { λ version c. collect_text version (collect_of c) };

    fn print(&self, version: u8, out: &mut Vec<u8>) -> Result<(), NoMemory> {
        print_collection(version, self.collection.bytes(), out)?;
        put(b"(", out)?;
        print_target(&self.target, out)?;
        put(b")", out)
    }
}
