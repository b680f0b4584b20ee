// What is written back is read as the same token.

ghost use Rattle.std.specs.Prelude.{ℕ, List, ℤ};
ghost use Rattle.std.specs.Fmt.{signed_decimal};
ghost use Rattle.sd_lex.specs.Lexing.{Spells};
ghost use Rattle.sd_lex.specs.declared.token.TokenKind.TheVariants.{Quoted, Int};
ghost use Rattle.token_writer.specs.Writing.{quoted_text};

/// The quoted form of a text is the text of that token.
pub fn quoted_text_is_its_token()
    ensures { (text : List ℕ) → Spells (quoted_text text) (Quoted text) }
{}

/// The decimal form of a number is the text of that token.
pub fn number_is_its_token(n: i64)
    ensures { Spells (signed_decimal n) (Int n) }
{}
