// Rows that give a clause the values which the row before gave it. Rows ascend, so such rows are together.
ghost use Rattle.std.specs.Prelude.{◌≡◌, ◌≤◌, IsTrue, length, take};
ghost use Rattle.query_spec.specs.Holds.{operand_value};
ghost use Rattle.query_spec.specs.Rows.{value_in};
ghost use Rattle.struql_ast.specs.Reading.{operand_of, term_of, target_of, label_of, link_of, collect_of};
ghost use Rattle.site_spec.specs.Site.{SomeOf, IsTermUnder, IsTargetUnder, IsLabelUnder, ended};
ghost use Rattle.site_build.specs.Materialised.{IsJoin, IsPutUnder};
ghost use Rattle.site_build.specs.Widths.{OnlyReads, OnlyAsks};

use query_spec::{Row, Variable};
use sd_value::{Str, Value};
use struql_ast::{Collect, Link, LinkLabel, Operand, SkolemTerm, Target};

// How many of a row's first values decide the name's.
fn name_width(variables: &[Variable], name: &Str) -> usize
    ensures bound { result ≤ length variables.now }
    ensures reads { OnlyReads result (λ row. value_in variables.now row name.now) }
{
    let [variable, variables @ ..] = variables else {
        return 0;
    };
    if variable.name == *name {
        return 1;
    }
    1 + name_width(variables, name)
}

fn operand_width(variables: &[Variable], operand: &Operand) -> usize
    ensures { OnlyReads result
        (λ row. operand_value (value_in variables.now row) (operand_of operand.now)) }
{
    match operand {
        Operand::Variable(name, _) => name_width(variables, name),
        Operand::Constant(_, _) => 0,
    }
}

fn larger(a: usize, b: usize) -> usize
    ensures first { a ≤ result }
    ensures second { b ≤ result }
{
    if a < b { b } else { a }
}

/// How many of a row's first values decide what the term names.
pub(crate) fn term_width(variables: &[Variable], written: &SkolemTerm) -> usize
    ensures { OnlyAsks result
        (λ row p. IsTermUnder (value_in variables.now row) (term_of written.now) p) }
{
    let mut width = 0;
    for operand in written.args.as_slice() {
        width = larger(width, operand_width(variables, operand));
    }
    width
}

fn target_width(variables: &[Variable], target: &Target) -> usize
    ensures { OnlyAsks result
        (λ row v. IsTargetUnder (value_in variables.now row) (target_of target.now) v) }
{
    match target {
        Target::Plain(operand) => operand_width(variables, operand),
        Target::Made(written) => term_width(variables, written),
        Target::Summed(_, _) => 0,
    }
}

fn label_width(variables: &[Variable], label: &LinkLabel) -> usize
    ensures { OnlyAsks result
        (λ row l. IsLabelUnder (value_in variables.now row) (label_of label.now) l) }
{
    match label {
        LinkLabel::Quoted(_) => 0,
        LinkLabel::Variable(name, _) => name_width(variables, name),
    }
}

/// How many of a row's first values decide what the link joins, ending at the target.
pub(crate) fn link_width(variables: &[Variable], link: &Link, target: &Target) -> usize
    ensures { OnlyAsks result
        (λ row j. IsJoin (ended (link_of link.now) (target_of target.now))
        (value_in variables.now row) j) }
{
    let from = target_width(variables, &link.source);
    let label = label_width(variables, &link.label);
    let to = target_width(variables, target);
    larger(from, larger(label, to))
}

/// How many of a row's first values decide what the COLLECT puts.
pub(crate) fn put_width(variables: &[Variable], collect: &Collect) -> usize
    ensures { OnlyAsks result
        (λ row p. IsPutUnder (collect_of collect.now) (value_in variables.now row) p) }
{
    target_width(variables, &collect.target)
}

// Whether the first values are the same. All rows differ, so where all of a row is asked for no value is looked at.
fn starts_alike(a: &[Value], b: &[Value], width: usize) -> bool
    ensures { IsTrue result → take width a.now ≡ take width b.now }
{
    if a.len() <= width {
        return false;
    }
    if b.len() < width {
        return false;
    }
    let a = &a[..width];
    let b = &b[..width];
    a.cmp(b).is_eq()
}

/// Whether the row begins as the last of the rows before it does.
pub(crate) fn is_repeated(before: &[Row], row: &[Value], width: usize) -> bool
    ensures { IsTrue result → SomeOf (λ other. take width other ≡ take width row.now) before.now }
{
    match before {
        [.., last] => starts_alike(last.values(), row, width),
        [] => false,
    }
}
