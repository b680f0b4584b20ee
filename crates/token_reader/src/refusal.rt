//! Why a text is refused by a reader of its tokens.

ghost use Rattle.std.specs.Prelude.{◌≡◌, ◌≢◌, true, false};
ghost use Rattle.token_reader.specs.Refused.{of_lexer, of_tokens};

use sd_lex::LexRefusal;

/// Why tokens spell nothing of a grammar.
#[derive(Clone, Copy, Debug, PartialEq, Eq)]
pub enum TokenRefusal {
    /// The token at this place doesn't fit, or the text ends too early.
    Expected(u64),
    NoMemory,
}

/// Why a text is refused. Each place counts bytes from the start.
#[derive(Clone, Copy, Debug, PartialEq, Eq)]
pub enum TextRefusal {
    /// There are more bytes than this limit.
    TooLong(u64),
    /// No token begins at this byte, or it is the backslash of an unknown escape.
    BadByte(u64),
    /// The text whose quote is here isn't closed.
    OpenString(u64),
    /// The number here is outside i64.
    IntOutOfRange(u64),
    /// The token at this place doesn't fit, or the text ends too early.
    Expected(u64),
    NoMemory,
}

impl TextRefusal {
    /// Whether the reader was out of memory, so that nothing is said of the text.
    pub fn is_out_of_memory(&self) -> bool
        ensures is { result ≡ true → self.now ≡ TextRefusal.NoMemory }
        ensures no { result ≡ false → self.now ≢ TextRefusal.NoMemory }
    {
        *self == TextRefusal::NoMemory
    }
}

impl From<LexRefusal> for TextRefusal {
    ghost from_gives = { λ e r. r ≡ of_lexer e };

    fn from(e: LexRefusal) -> Self {
        match e {
            LexRefusal::TooLong(at) => TextRefusal::TooLong(at),
            LexRefusal::BadByte(at) => TextRefusal::BadByte(at),
            LexRefusal::OpenString(at) => TextRefusal::OpenString(at),
            LexRefusal::IntOutOfRange(at) => TextRefusal::IntOutOfRange(at),
            LexRefusal::NoMemory => TextRefusal::NoMemory,
        }
    }
}

impl From<TokenRefusal> for TextRefusal {
    ghost from_gives = { λ e r. r ≡ of_tokens e };

    fn from(e: TokenRefusal) -> Self {
        match e {
            TokenRefusal::Expected(at) => TextRefusal::Expected(at),
            TokenRefusal::NoMemory => TextRefusal::NoMemory,
        }
    }
}
