// The table of inclusions.

ghost use Rattle.std.specs.Prelude.{◌≡◌, ◌↔◌, IfOk, IsTrue, Option, Some};
ghost use Rattle.constraint_spec.specs.Entailed.{IsIncluded};
ghost use Rattle.rpe.specs.Reading.{regex_of};
ghost use Rattle.query_blocks.specs.Blocks.{scope_of};
ghost use Rattle.inclusion.specs.Answers.{IsRow, AreRows, bits_of, number_of as placed, bit_at, table_bit};
ghost use Rattle.inclusion.specs.Answers.{has_empty, tests_of, IsTableOf};

use crate::included;
use crate::known_expressions::expressions_of;
use crate::twins::{has_twin, spells};
use entailment::Judge;
use query_blocks::QueryBlocks;
use query_parts::same_rpe;
use rpe::Rpe;
use sd_value::{Datum, NoMemory, Value};
use std::alloc::Global;

/// The different expressions of a query, and for each of them in which of them it is included.
#[derive(Drop)]
pub struct Inclusions {
    expressions: Vec<Rpe>,
    rows: Vec<Vec<bool>>,
}

// Whether the one is included in the other. Most expressions are labels, so two labels are compared.
fn is_included(alloc: Global, one: &Rpe, other: &Rpe) -> Result<bool, NoMemory>
    ensures { IfOk result (λ yes. IsTrue yes ↔ IsIncluded (regex_of one.now) (regex_of other.now)) }
{
    match one {
        Rpe::Label(l) => match other {
            Rpe::Label(m) => Ok(l == m),
            _ => included(alloc, one, other),
        },
        _ => included(alloc, one, other),
    }
}

// In which of the expressions the one is included.
fn row_of(alloc: Global, all: &[Rpe], one: &Rpe) -> Result<Vec<bool>, NoMemory>
    ensures { IfOk result (λ row. IsRow all.now one.now row.items) }
{
    let mut row = Vec::new(alloc);
    for other in all {
        row.push(is_included(alloc, one, other)?)?;
    }
    Ok(row)
}

fn rows_of(alloc: Global, all: &[Rpe]) -> Result<Vec<Vec<bool>>, NoMemory>
    ensures { IfOk result (λ rows. AreRows all.now rows.items) }
{
    let mut rows = Vec::new(alloc);
    for one in all {
        rows.push(row_of(alloc, all, one)?)?;
    }
    Ok(rows)
}

// The number of the expression among all.
fn number_of(all: &[Rpe], expression: &Rpe) -> Option<usize>
    ensures { result ≡ placed all.now (regex_of expression.now) }
{
    all.iter().position(|e| same_rpe(e, expression))
}

// The bit in the row i at the place j.
fn bit(rows: &[Vec<bool>], i: usize, j: usize) -> bool
    ensures { result ≡ bit_at (bits_of rows.now) (Some i) (Some j) }
{
    match rows.get(i) {
        Some(row) => match row.get(j) {
            Some(bit) => *bit,
            None => false,
        },
        None => false,
    }
}

impl Inclusions {
    /// The table of a query's expressions. It is right of all that the query asks.
    pub fn of(alloc: Global, query: &QueryBlocks) -> Result<Inclusions, NoMemory>
        ensures { IfOk result (IsTableOf (scope_of query.now)) }
    {
        let expressions = expressions_of(alloc, &query.blocks)?;
        let rows = rows_of(alloc, &expressions)?;
        Ok(Inclusions { expressions, rows })
    }

    // What the table has of the two expressions.
    fn looked_up(&self, one: &Rpe, other: &Rpe) -> bool
        ensures { result ≡ table_bit self.now (regex_of one.now) (regex_of other.now) }
    {
        match number_of(&self.expressions, one) {
            None => false,
            Some(i) => match number_of(&self.expressions, other) {
                None => false,
                Some(j) => bit(&self.rows, i, j),
            },
        }
    }
}

fn has_empty_word(expression: &Rpe) -> bool
    ensures { result ≡ has_empty (regex_of expression.now) }
{
    match expression {
        Rpe::Label(_) | Rpe::Any => false,
        Rpe::Empty | Rpe::Star(_) => true,
        Rpe::Seq(a, b) => has_empty_word(a) && has_empty_word(b),
        Rpe::Alt(a, b) => has_empty_word(a) || has_empty_word(b),
    }
}

impl Judge for Inclusions {
    ghost tests = { tests_of };

    fn included(&self, one: &Rpe, other: &Rpe) -> bool {
        match one {
            Rpe::Label(l) => match other {
                Rpe::Label(m) => l == m,
                Rpe::Any | Rpe::Empty | Rpe::Seq(_, _) | Rpe::Alt(_, _) | Rpe::Star(_) => {
                    self.looked_up(one, other)
                }
            },
            Rpe::Any | Rpe::Empty | Rpe::Seq(_, _) | Rpe::Alt(_, _) | Rpe::Star(_) => {
                self.looked_up(one, other)
            }
        }
    }

    fn has_letters(&self, expression: &Rpe) -> bool {
        self.included(&Rpe::Any, expression)
    }

    fn has_empty(&self, expression: &Rpe) -> bool {
        has_empty_word(expression)
    }

    fn are_twins(&self, version: u8, one: &Value, other: &Value) -> bool {
        match one {
            Value::Data(Datum::Int(n)) => match other {
                Value::Data(Datum::Text(s)) => version >= 2 && spells(*n, s),
                _ => false,
            },
            Value::Data(Datum::Text(s)) => match other {
                Value::Data(Datum::Int(n)) => version >= 2 && spells(*n, s),
                _ => false,
            },
            _ => false,
        }
    }

    fn is_alone(&self, version: u8, value: &Value) -> bool {
        !(version >= 2 && has_twin(value))
    }
}
