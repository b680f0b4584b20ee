//! Why a text is no query.

ghost use Rattle.std.specs.Prelude.{◌≡◌, ◌≢◌, true, false};
ghost use Rattle.struql_parse.specs.Refused.{of_lexer};

use sd_lex::LexRefusal;
use token_reader::TextRefusal;

/// Why a text is no query. Each place counts bytes from the start.
#[derive(Clone, Copy, Debug, PartialEq, Eq)]
pub enum ParseRefusal {
    /// The text has no tokens, or they don't fit the grammar.
    Text(TextRefusal),
    /// The sign at this place passes a limit: the brace of a block with 16 blocks round it, the
    /// 65th open parenthesis, the star that puts 65 stars one within another, or the 1,024th dot
    /// or bar of an expression.
    TooDeep(u64),
    /// The number at this place, after `STRUQL`, is none of 1, 2 and 3.
    BadVersion(u64),
}

impl ParseRefusal {
    /// Whether the reader was out of memory, so that nothing is said of the text.
    pub fn is_out_of_memory(&self) -> bool
        ensures is { result ≡ true → self.now ≡ ParseRefusal.Text TextRefusal.NoMemory }
        ensures no { result ≡ false → self.now ≢ ParseRefusal.Text TextRefusal.NoMemory }
    {
        *self == ParseRefusal::Text(TextRefusal::NoMemory)
    }
}

impl From<LexRefusal> for ParseRefusal {
    ghost from_gives = { λ e r. r ≡ of_lexer e };

    fn from(e: LexRefusal) -> Self {
        ParseRefusal::Text(TextRefusal::from(e))
    }
}
