// Whether a link may carry a label.

ghost use Rattle.std.specs.Prelude.{◌≡◌, IfOk, not};
ghost use Rattle.std.specs.List.{list_all};
ghost use Rattle.graph_spec.specs.DataGraph.{text};
ghost use Rattle.query_spec.specs.declared.Op.TheVariants.{Eq as EqOp, Ne as NeOp};
ghost use Rattle.query_spec.specs.Query.{variable, constant};
ghost use Rattle.struql_ast.specs.Reading.{operand_of, condition_of, label_of};
ghost use Rattle.query_parts.specs.Same.{same_op, same_operand};
ghost use Rattle.constraint_recheck.specs.Entails.{equal, among, on_constant, fixes};
ghost use Rattle.constraint_recheck.specs.Recheck.{is_other_text as other_text};
ghost use Rattle.constraint_recheck.specs.Recheck.{is_not_label, is_other_list as other_list};
ghost use Rattle.constraint_recheck.specs.Recheck.{forbids as kept_away, may_be as allowed};
ghost use Rattle.constraint_recheck.specs.Recheck.{may_carry as carries};
ghost use Rattle.query_links.specs.Links.{placed};

use entailment::{Judge, is_of};
use query_spec::Op;
use sd_value::{Datum, NoMemory, Str, Value};
use std::alloc::Global;
use std::marker::Model;
use struql_ast::{Chain, Condition, Link, LinkLabel, Operand};

/// A label that is asked for, as a name and as the value that an arc variable has for it.
#[derive(Drop)]
pub struct AskedLabel {
    name: Str,
    value: Value,
}

impl Model for AskedLabel {
    ghost use Rattle.std.specs.Prelude.{◌≡◌, ℕ, List};
    ghost use Rattle.graph_spec.specs.DataGraph.{text};

    ghost Value = { List ℕ };

    ghost view = { λ l. l.name };

    ghost invariant = { λ l. l.value ≡ text l.name };
}

impl AskedLabel {
    /// The label of this name.
    pub fn new(alloc: Global, name: &Str) -> Result<AskedLabel, NoMemory>
        ensures { IfOk result (λ label. label ≡ name.now) }
    {
        let value = Value::Data(Datum::Text(name.copy(alloc)?));
        let name = name.copy(alloc)?;
        Ok(AskedLabel { name, value })
    }

    /// Its name.
    pub fn name(&self) -> &Str
        ensures { result.now ≡ self.now }
    {
        &self.name
    }

    /// Its value.
    pub fn value(&self) -> &Value
        ensures { result.now ≡ text self.now }
    {
        &self.value
    }
}

fn is_named(operand: &Operand, name: &Str) -> bool
    ensures { result ≡ same_operand (operand_of operand.now) (variable name.now) }
{
    match operand {
        Operand::Variable(x, _) => x == name,
        Operand::Constant(_, _) => false,
    }
}

fn is_label(operand: &Operand, label: &AskedLabel) -> bool
    ensures { result ≡ same_operand (operand_of operand.now) (constant (text label.now)) }
{
    match operand {
        Operand::Variable(_, _) => false,
        Operand::Constant(value, _) => value == label.value(),
    }
}

fn is_other_text(operand: &Operand, label: &AskedLabel) -> bool
    ensures { result ≡ on_constant (other_text label.now) (operand_of operand.now) }
{
    match operand {
        Operand::Variable(_, _) => false,
        Operand::Constant(value, _) => match value {
            Value::Data(datum) => match datum {
                Datum::Text(text) => !(text == label.name()),
                _ => false,
            },
            Value::Page(_) => false,
        },
    }
}

fn is_eq(op: Op) -> bool
    ensures { result ≡ same_op op EqOp }
{
    match op {
        Op::Eq => true,
        _ => false,
    }
}

fn is_ne(op: Op) -> bool
    ensures { result ≡ same_op op NeOp }
{
    match op {
        Op::Ne => true,
        _ => false,
    }
}

// Whether the condition is `a = "k"` with another k, either way round.
fn fixes_other(name: &Str, label: &AskedLabel, condition: &Condition) -> bool
    ensures { result ≡ fixes (other_text label.now) (variable name.now)
        (condition_of condition.now) }
{
    match condition {
        Condition::Compare {
            left,
            op,
            right,
            span: _,
        } => {
            is_eq(*op)
                && ((is_named(left, name) && is_other_text(right, label))
                    || (is_named(right, name) && is_other_text(left, label)))
        }
        _ => false,
    }
}

// Whether the condition is `a != "l"`, either way round.
fn is_difference(name: &Str, label: &AskedLabel, condition: &Condition) -> bool
    ensures { result ≡ is_not_label name.now label.now (condition_of condition.now) }
{
    match condition {
        Condition::Compare {
            left,
            op,
            right,
            span: _,
        } => {
            (is_named(left, name) && (is_ne(*op) && is_label(right, label)))
                || (is_label(left, label) && (is_ne(*op) && is_named(right, name)))
        }
        _ => false,
    }
}

fn is_equal<J: Judge>(judge: &J, version: u8, label: &AskedLabel, value: &Value) -> bool
    ensures { result ≡ equal (J.tests judge.now) version (text label.now) value.now }
{
    label.value() == value || judge.are_twins(version, label.value(), value)
}

// Whether the label or its twin is among the values.
fn is_among<J: Judge>(judge: &J, version: u8, label: &AskedLabel, values: &[Value]) -> bool
    ensures { result ≡ among (J.tests judge.now) version values.now (text label.now) }
{
    values.iter().any(|v| is_equal(judge, version, label, v))
}

// Whether the condition is `a in` a list without the label and its twin.
fn is_other_list<J: Judge>(
    judge: &J,
    version: u8,
    name: &Str,
    label: &AskedLabel,
    condition: &Condition,
) -> bool
    ensures { result ≡ other_list (J.tests judge.now) version name.now label.now (condition_of
        condition.now) }
{
    match condition {
        Condition::OneOf {
            operand,
            constants,
            span: _,
        } => is_named(operand, name) && !is_among(judge, version, label, constants.items()),
        _ => false,
    }
}

// Whether the condition keeps the arc variable from being the label.
fn forbids<J: Judge>(
    judge: &J,
    version: u8,
    name: &Str,
    label: &AskedLabel,
    condition: &Condition,
) -> bool
    ensures { result ≡ kept_away (J.tests judge.now) version name.now label.now (condition_of
        condition.now) }
{
    fixes_other(name, label, condition)
        || (is_difference(name, label, condition)
            || is_other_list(judge, version, name, label, condition))
}

fn none_forbids<J: Judge>(
    judge: &J,
    version: u8,
    name: &Str,
    label: &AskedLabel,
    conditions: &[Condition],
) -> bool
    ensures { result ≡ list_all (λ c. not (kept_away (J.tests judge.now) version name.now label.now
        (condition_of c))) conditions.now }
{
    conditions
        .iter()
        .all(|c| !forbids(judge, version, name, label, c))
}

// Whether the link's label may be this one.
fn may_be<J: Judge>(
    judge: &J,
    version: u8,
    label: &AskedLabel,
    chain: &Chain,
    written: &LinkLabel,
) -> bool
    ensures { result ≡ allowed (J.tests judge.now) version label.now chain.now.conditions (label_of
        written.now) }
{
    match written {
        LinkLabel::Quoted(quoted) => quoted == label.name(),
        LinkLabel::Variable(name, _) => {
            none_forbids(judge, version, name, label, chain.conditions())
        }
    }
}

/// Whether the link starts at a term of the function and may carry the label.
pub fn may_carry<J: Judge>(
    judge: &J,
    version: u8,
    function: &Str,
    label: &AskedLabel,
    chain: &Chain,
    link: &Link,
) -> bool
    ensures { result ≡ carries (J.tests judge.now) version function.now label.now (placed
        chain.now.conditions link.now) }
{
    is_of(&link.source, function) && may_be(judge, version, label, chain, &link.label)
}
