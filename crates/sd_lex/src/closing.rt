//! A text read part by part, each up to and with a `}`.

ghost use Rattle.std.specs.Prelude.{◌≡◌, ◌+◌, ◌^◌, ◌<◌, length, IfOk};
ghost use Rattle.sd_lex.specs.Lexing.{UnlessNoMemory};
ghost use Rattle.sd_lex.specs.Closing.{is_close, IsStart, IsClosedOrFault};

use crate::lexing::{behind_gaps, behind_mark, skip, token_of};
use crate::refusal::LexRefusal;
use crate::token::{Sign, Token, TokenKind};
use std::alloc::Global;

/// What is left of a text, the first byte of which has the place `at`.
#[derive(Clone, Copy)]
pub struct Rest<'a> {
    pub bytes: &'a [u8],
    pub at: u64,
}

/// The whole of a text of at most `limit` bytes, behind its byte order mark.
pub fn text_rest(bytes: &[u8], limit: u64) -> Result<Rest, LexRefusal>
    ensures { IsStart limit bytes.now result }
{
    if bytes.len() as u64 > limit {
        return Err(LexRefusal::TooLong(limit));
    }
    let text = behind_mark(bytes);
    Ok(Rest {
        bytes: text,
        at: (bytes.len() - text.len()) as u64,
    })
}

fn is_close(token: &Token) -> bool
    ensures { result ≡ is_close token.now }
{
    match &token.kind {
        TokenKind::Sign(sign) => *sign == Sign::CloseBrace,
        TokenKind::Name(_) | TokenKind::Quoted(_) | TokenKind::Int(_) => false,
    }
}

/// The tokens up to and with the next `}`, or all that are left, in place of what `tokens` had.
/// What is left then begins behind the blanks and comments that follow.
pub fn tokens_to_close<'a>(
    alloc: Global,
    rest: Rest<'a>,
    tokens: &mut Vec<Token>,
) -> Result<Rest<'a>, LexRefusal>
    requires { rest.at + length rest.bytes.now < 2 ^ 64 }
    ensures { UnlessNoMemory
        (IsClosedOrFault rest.entry.at rest.entry.bytes.now tokens.new.items) result }
{
    tokens.clear();
    let mut bytes = behind_gaps(rest.bytes);
    let mut at = rest.at + (rest.bytes.len() - bytes.len()) as u64;
    'tokens: while !bytes.is_empty() {
        let token = match token_of(alloc, bytes, at) {
            Ok(token) => token,
            Err(refusal) => return Err(refusal),
        };
        let len = token.span.end - at;
        let after = skip(bytes, len as usize);
        bytes = behind_gaps(after);
        at = token.span.end + (after.len() - bytes.len()) as u64;
        let closes = is_close(&token);
        tokens.push(token)?;
        if closes {
            return Ok(Rest { bytes, at });
        }
    }
    Ok(Rest { bytes, at })
}
