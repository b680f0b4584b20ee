//! The reader of the bytes of a data text.

ghost use Rattle.std.specs.Prelude.{◌+◌, ◌^◌, ◌<◌, IfSome, List, Ok, length};
ghost use Rattle.sd_lex.specs.declared.token.Token.{Token};
ghost use Rattle.sd_lex.specs.Lexing.{IsTextOrFault};
ghost use Rattle.ddl_text.specs.declared.tree.Statement.{Statement as AnyStatement};
ghost use Rattle.ddl_text.specs.DataText.{file};
ghost use Rattle.ddl_text.specs.Next.{IsNext};
ghost use Rattle.ddl_text.specs.Text.{TextStates, TextGives};

use crate::reading::{one_statement, statements};
use crate::tree::Statement;
use sd_lex::{Rest, Token as LexToken, tokens, tokens_to_close};
use std::alloc::Global;
use token_reader::TextRefusal;

/// The statements of a text of at most `limit` bytes.
pub fn statements_of(alloc: Global, bytes: &[u8], limit: u64) -> Result<Vec<Statement>, TextRefusal>
    ensures exact { TextStates limit bytes.now result }
    ensures only { (tokens : List Token) (found : List AnyStatement)
        → IsTextOrFault limit bytes.now (Ok tokens) → file tokens found → TextGives found result }
{
    let tokens = tokens(alloc, bytes, limit)?;
    let found = statements(alloc, tokens.as_slice(), bytes.len() as u64)?;
    Ok(found)
}

/// The statement that the tokens up to and with the next `}` spell, and what is left of the text
/// then. `tokens` is room for these tokens. `None` may also be out of memory.
pub fn next_statement<'a>(
    alloc: Global,
    rest: Rest<'a>,
    tokens: &mut Vec<LexToken>,
) -> Option<(Statement, Rest<'a>)>
    requires { rest.at + length rest.bytes.now < 2 ^ 64 }
    ensures { IfSome result (λ found. IsNext rest.entry.at rest.entry.bytes.now found.0 found.1) }
{
    let Ok(left) = tokens_to_close(alloc, rest, tokens) else {
        return None;
    };
    let statement = one_statement(alloc, tokens.as_slice())?;
    Some((statement, left))
}
