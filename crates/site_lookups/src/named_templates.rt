//! The template of a value.
ghost use Rattle.std.specs.Prelude.{◌≡◌, ◌<◌, ℕ, length, map, IfOk, MatchOption};
ghost use Rattle.graph_spec.specs.DataGraph.{IsWellFormed, HasMember};
ghost use Rattle.tmpl.specs.Reading.{file_of, named_of};
ghost use Rattle.page_spec.specs.Pieces.{First, HasTemplate};
ghost use Rattle.page_spec.specs.Question.{template as asks_template};
ghost use Rattle.site_spec.specs.Site.{Scope};
ghost use Rattle.weight_spec.specs.Charges.{IsCause};
ghost use Rattle.weight_spec.specs.CountsAtMost.{CountsAtMost};
ghost use Rattle.weight_spec.specs.Site.{site_of};

use crate::data_members::is_member;
use asker::Asker;
use sd_value::{Datum, NoMemory, Str, Value};
use std::alloc::Global;
use tmpl::{NamedTemplate, Templates};

/// The number of the function's template.
pub fn function_template(names: &[NamedTemplate], function: &Str) -> Option<u32>
    ensures { MatchOption result
        ((k : ℕ) → First (λ name. name ≡ function.now) (map named_of names.now) k → ⊥)
        (λ k. First (λ name. name ≡ function.now) (map named_of names.now) k) }
{
    for named in names {
        if named.name == *function {
            return Some(named.template);
        }
    }
    None
}

// The number of the first template whose collection has the node as a member of the data.
fn collection_template<A: Asker>(
    alloc: Global,
    asker: &mut A,
    names: &[NamedTemplate],
    node: &Str,
) -> Result<Option<u32>, NoMemory>
    requires { IsWellFormed (A.graph asker.old) }
    ensures graph { A.graph asker.new ≡ A.graph asker.old }
    ensures counted { CountsAtMost (λ n. n < length names.now) (A.count asker.old)
        (A.count asker.new) }
    ensures answer { IfOk result (λ r. MatchOption r
        ((k : ℕ) → First (λ name. HasMember (A.graph asker.old) name node.now)
        (map named_of names.now) k → ⊥)
        (λ k. First (λ name. HasMember (A.graph asker.old) name node.now)
        (map named_of names.now) k)) }
{
    for named in names {
        if is_member(alloc, asker, &named.name, node)? {
            return Ok(Some(named.template));
        }
    }
    Ok(None)
}

/// The number of the value's template, where it has one. Each collection template that is tried for a node counts one.
pub fn template<A: Asker>(
    alloc: Global,
    asker: &mut A,
    templates: &Templates,
    value: &Value,
) -> Result<Option<u32>, NoMemory>
    requires well_formed { IsWellFormed (A.graph asker.old) }
    ensures graph { A.graph asker.new ≡ A.graph asker.old }
    ensures counted { (q : Scope)
        → CountsAtMost
        (IsCause (A.graph asker.old) q (file_of templates.now) (asks_template value.now))
        (A.count asker.old) (A.count asker.new) }
    ensures answer { IfOk result (λ r. MatchOption r
        ((k : ℕ) (q : Scope)
        → HasTemplate (site_of (A.graph asker.old) q) (file_of templates.now) value.now k → ⊥)
        (λ k. (q : Scope)
        → HasTemplate (site_of (A.graph asker.old) q) (file_of templates.now) value.now k)) }
{
    match value {
        Value::Page(term) => Ok(function_template(templates.functions(), &term.function)),
        Value::Data(datum) => match datum {
            Datum::Node(name) => {
                let number = collection_template(alloc, asker, templates.collections(), name)?;
                Ok(number)
            }
            _ => Ok(None),
        },
    }
}
