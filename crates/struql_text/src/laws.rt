// Laws of the readers of a query's parts: what each reads is what its grammar spells.

ghost use Rattle.std.specs.Prelude.{ℕ, List};
ghost use Rattle.sd_lex.specs.declared.token.Token.{Token};
ghost use Rattle.struql_text.specs.SpelledConditions.{IsReadAsSpelled};

/// In each version a condition is read exactly where tokens in front spell it within the limits.
pub fn conditions_are_read_as_spelled()
    ensures { (version : ℕ) (tokens : List Token) → IsReadAsSpelled version tokens }
{}
