//! Why a text of constraints is refused.

ghost use Rattle.std.specs.Prelude.{◌≡◌};
ghost use Rattle.constraints.specs.Refused.{of_lexer, of_tokens, of_fault, out_of_memory};

use sd_lex::LexRefusal;
use token_reader::{TextRefusal, TokenRefusal};

/// What is wrong with a function that a constraint names.
#[derive(Clone, Copy, Debug, PartialEq, Eq)]
pub enum NameFault {
    /// The function at this place stands in no CREATE of the query.
    Unknown(u64),
    /// The function at this place, behind FROM, has arguments.
    HasArguments(u64),
}

/// Why a text of constraints is refused. Each place counts bytes from the start.
#[derive(Clone, Copy, Debug, PartialEq, Eq)]
pub enum ConstraintRefusal {
    /// The text has no tokens, or they don't fit the grammar.
    Text(TextRefusal),
    /// The function at this place stands in no CREATE of the query.
    UnknownFunction(u64),
    /// The function at this place, behind FROM, has arguments.
    RootHasArguments(u64),
}

impl From<LexRefusal> for ConstraintRefusal {
    ghost from_gives = { λ e r. r ≡ of_lexer e };

    fn from(e: LexRefusal) -> Self {
        ConstraintRefusal::Text(TextRefusal::from(e))
    }
}

impl From<TokenRefusal> for ConstraintRefusal {
    ghost from_gives = { λ e r. r ≡ of_tokens e };

    fn from(e: TokenRefusal) -> Self {
        ConstraintRefusal::Text(TextRefusal::from(e))
    }
}

impl From<NameFault> for ConstraintRefusal {
    ghost from_gives = { λ e r. r ≡ of_fault e };

    fn from(e: NameFault) -> Self {
        match e {
            NameFault::Unknown(at) => ConstraintRefusal::UnknownFunction(at),
            NameFault::HasArguments(at) => ConstraintRefusal::RootHasArguments(at),
        }
    }
}

impl From<sd_value::NoMemory> for ConstraintRefusal {
    ghost from_gives = { λ _ e. e ≡ out_of_memory };

    fn from(_: sd_value::NoMemory) -> Self {
        ConstraintRefusal::Text(TextRefusal::NoMemory)
    }
}
