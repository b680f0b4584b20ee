//! Expressions.

ghost use Rattle.std.specs.Prelude.{◌≡◌, ◌++◌, IfOk, if◌then◌else◌, codes, []};
ghost use Rattle.rpe.specs.Reading.{regex_of};
ghost use Rattle.struql_print.specs.Texts.{regex_text, is_alt as has_alt, is_alt_or_seq as has_alt_or_seq};

use rpe::Rpe;
use sd_value::NoMemory;
use token_writer::{put, put_quoted};

fn is_alt(tree: &Rpe) -> bool
    ensures { result ≡ has_alt (regex_of tree.now) }
{
    match tree {
        Rpe::Alt(_, _) => true,
        Rpe::Label(_) | Rpe::Any | Rpe::Empty | Rpe::Seq(_, _) | Rpe::Star(_) => false,
    }
}

fn is_alt_or_seq(tree: &Rpe) -> bool
    ensures { result ≡ has_alt_or_seq (regex_of tree.now) }
{
    match tree {
        Rpe::Alt(_, _) | Rpe::Seq(_, _) => true,
        Rpe::Label(_) | Rpe::Any | Rpe::Empty | Rpe::Star(_) => false,
    }
}

fn open_if(encloses: bool, out: &mut Vec<u8>) -> Result<(), NoMemory>
    ensures { IfOk result (λ _. out.new.items
        ≡ out.old.items ++ (if encloses then codes "(" else [])) }
{
    if encloses { put(b"(", out) } else { Ok(()) }
}

fn close_if(encloses: bool, out: &mut Vec<u8>) -> Result<(), NoMemory>
    ensures { IfOk result (λ _. out.new.items
        ≡ out.old.items ++ (if encloses then codes ")" else [])) }
{
    if encloses { put(b")", out) } else { Ok(()) }
}

/// Appends an expression's text, with the parentheses that its grouping needs.
pub fn print_regex(tree: &Rpe, out: &mut Vec<u8>) -> Result<(), NoMemory>
    ensures { IfOk result (λ _. out.new.items ≡ out.old.items ++ regex_text (regex_of tree.now)) }
{
    match tree {
        Rpe::Label(label) => put_quoted(label.bytes(), out),
        Rpe::Any => put(b"true", out),
        Rpe::Empty => put(b"()", out),
        Rpe::Seq(left, right) => {
            let left_encloses = is_alt(left);
            let right_encloses = is_alt_or_seq(right);
            open_if(left_encloses, out)?;
            print_regex(left, out)?;
            close_if(left_encloses, out)?;
            put(b".", out)?;
            open_if(right_encloses, out)?;
            print_regex(right, out)?;
            close_if(right_encloses, out)
        }
        Rpe::Alt(left, right) => {
            let encloses = is_alt(right);
            print_regex(left, out)?;
            put(b"|", out)?;
            open_if(encloses, out)?;
            print_regex(right, out)?;
            close_if(encloses, out)
        }
        Rpe::Star(inner) => {
            let encloses = is_alt_or_seq(inner);
            open_if(encloses, out)?;
            print_regex(inner, out)?;
            close_if(encloses, out)?;
            put(b"*", out)
        }
    }
}
