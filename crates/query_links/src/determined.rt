// Whether a link's source determines its target.

ghost use Rattle.std.specs.Prelude.{◌≡◌};
ghost use Rattle.std.specs.List.{list_any, list_all};
ghost use Rattle.query_spec.specs.Mentions.{same_name, operand_names};
ghost use Rattle.struql_ast.specs.Reading.{operand_of, target_of, link_of};
ghost use Rattle.constraint_spec.specs.Certificate.{target_names};
ghost use Rattle.query_links.specs.Links.{has_target_in_source};

use sd_value::Str;
use struql_ast::{Link, Operand, Target};

fn is_variable(operand: &Operand, name: &Str) -> bool
    ensures { result ≡ list_any (same_name name.now) (operand_names (operand_of operand.now)) }
{
    match operand {
        Operand::Variable(x, _) => name == x,
        Operand::Constant(_, _) => false,
    }
}

fn some_variable(args: &[Operand], name: &Str) -> bool
    ensures { result ≡ list_any (λ o. list_any (same_name name.now) (operand_names (operand_of o)))
        args.now }
{
    args.iter().any(|o| is_variable(o, name))
}

// Whether the variable is one of the target's.
fn has_variable(target: &Target, name: &Str) -> bool
    ensures { result ≡ list_any (same_name name.now) (target_names (target_of target.now)) }
{
    match target {
        Target::Plain(operand) => is_variable(operand, name),
        Target::Made(term) => some_variable(&term.args, name),
        Target::Summed(_, _) => false,
    }
}

// Whether the operand is a constant, or a variable of the source.
fn is_in(source: &Target, operand: &Operand) -> bool
    ensures { result ≡ list_all (λ x. list_any (same_name x) (target_names (target_of source.now)))
        (operand_names (operand_of operand.now)) }
{
    match operand {
        Operand::Variable(x, _) => has_variable(source, x),
        Operand::Constant(_, _) => true,
    }
}

fn are_in(source: &Target, args: &[Operand]) -> bool
    ensures { result ≡ list_all (λ o. list_all (λ x. list_any (same_name x) (target_names (target_of
        source.now))) (operand_names (operand_of o))) args.now }
{
    args.iter().all(|o| is_in(source, o))
}

/// Whether the link ends at no aggregate, and the variables of its target are all among its source's.
pub fn is_determined(link: &Link) -> bool
    ensures { result ≡ has_target_in_source (link_of link.now) }
{
    match &link.target {
        Target::Plain(operand) => is_in(&link.source, operand),
        Target::Made(term) => are_in(&link.source, &term.args),
        Target::Summed(_, _) => false,
    }
}
