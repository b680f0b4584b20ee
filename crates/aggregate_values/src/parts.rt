//! What an aggregate looks at in a row.
ghost use Rattle.std.specs.Prelude.{◌≡◌, IfOk};
ghost use Rattle.query_spec.specs.Query as plain;
ghost use Rattle.query_spec.specs.Query.{variable};
ghost use Rattle.struql_ast.specs.Reading.{operand_of, aggregate_of, target_of};
ghost use Rattle.site_spec.specs.Site.{part_of};

use sd_lex::Span;
use sd_value::{NoMemory, Str};
use std::alloc::Global;
use struql_ast::{Aggregate, Operand, SkolemTerm, Target};

fn variable(alloc: Global, name: &Str, span: Span) -> Result<Operand, NoMemory>
    ensures { IfOk result (λ o. operand_of o ≡ variable name.now) }
{
    let name = name.copy(alloc)?;
    Ok(Operand::Variable(name, span))
}

fn one_target(alloc: Global, name: &Str, span: Span) -> Result<Target, NoMemory>
    ensures { IfOk result (λ t. target_of t ≡ plain.plain (variable name.now)) }
{
    let operand = variable(alloc, name, span)?;
    Ok(Target::Plain(operand))
}

/// What the aggregate looks at in a row, as a target: its variable, or for a sum a term without a name that has the
/// two variables as its arguments.
pub fn part_target(alloc: Global, aggregate: &Aggregate) -> Result<Target, NoMemory>
    ensures { IfOk result (λ t. target_of t ≡ part_of (aggregate_of aggregate.now)) }
{
    match aggregate {
        Aggregate::Count(name, span) => one_target(alloc, name, *span),
        Aggregate::Min(name, span) => one_target(alloc, name, *span),
        Aggregate::Max(name, span) => one_target(alloc, name, *span),
        Aggregate::Sum {
            value,
            value_span,
            key,
            key_span,
        } => {
            let mut args = Vec::new(alloc);
            args.push(variable(alloc, key, *key_span)?)?;
            args.push(variable(alloc, value, *value_span)?)?;
            Ok(Target::Made(SkolemTerm {
                function: Str::new(alloc, b"")?,
                args,
                span: *key_span,
            }))
        }
    }
}
