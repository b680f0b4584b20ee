//! The reader of the bytes of an edit.

ghost use Rattle.std.specs.Prelude.{ℕ, List};
ghost use Rattle.edit_reader.specs.Reads.{Reads, HasOneAnswer};

use crate::reading::spelled;
use edit_spec::Edit;
use sd_lex::tokens;
use std::alloc::Global;
use token_reader::TextRefusal;

/// The edit that a text of at most `limit` bytes spells:
///
/// ```text
/// edit := "edit" ( "add" name name value | "remove" name name value | "enter" name name | "leave" name name )
/// ```
///
/// The first name is the node, and the second the label or the collection. Names and values are those of a data text;
/// a quoted value without a kind is a text. A text of more bytes is `TooLong`, one that has no tokens has the lexer's
/// refusal, and one that is no edit is `Expected` at the first token such that no edit begins with the tokens up to and
/// with it, or at its end where more is wanted.
pub fn read_edit(alloc: Global, bytes: &[u8], limit: u64) -> Result<Edit, TextRefusal>
    ensures { Reads limit bytes.now result }
{
    let tokens = tokens(alloc, bytes, limit)?;
    let edit = spelled(alloc, tokens.as_slice(), bytes.len() as u64)?;
    Ok(edit)
}

/// The contract of `read_edit` admits one answer besides out of memory.
pub fn an_edit_has_one_answer()
    ensures { (limit : ℕ) (bytes : List ℕ) → HasOneAnswer limit bytes }
{}
