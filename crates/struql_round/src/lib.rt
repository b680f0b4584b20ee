//! What is printed of a query is read again.
#![tactic(auto)]

ghost use Rattle.std.specs.Prelude.{◌≡◌, ℕ, List};
ghost use Rattle.sd_lex.specs.declared.token.Token.{Token};
ghost use Rattle.sd_lex.specs.declared.token.Span.{Span};
ghost use Rattle.rpe.specs.Regex.{Regex};
ghost use Rattle.query_spec.specs.Query.{Condition, SkolemTerm};
ghost use Rattle.struql_ast.specs.Written.{Condition as Written, Term as WrittenTerm};
ghost use Rattle.struql_text.specs.Expression.{expression_within};
ghost use Rattle.struql_text.specs.Grammar.{condition, term};
ghost use Rattle.struql_round.specs.Shown.{Shows, Fits, signs_after};
ghost use Rattle.struql_round.specs.ShownParts.{ShowsCondition, ShowsTerm, condition_kept, term_kept};

mod queries;

pub use queries::{parsed_queries_are_read_again, queries_are_read_again};

/// Tokens that show an expression within the limits spell it, wherever they are.
pub fn expressions_are_read_again()
    ensures { (tree : Regex) (tokens : List Token) → Fits tree 0 64 → Shows tree tokens
        → (span : Span) × expression_within tokens (record {
          tree = tree;
          span = span;
          signs = signs_after 0 tree;
        }) }
{}

/// Tokens that show a condition in a version spell it there, wherever they are: the tree that they spell is the
/// condition, places aside.
pub fn conditions_are_read_again()
    ensures { (version : ℕ) (k : Condition) (tokens : List Token)
        → ShowsCondition version k tokens → (w : Written)
        × condition version expression_within tokens w × (condition_kept w ≡ k) }
{}

/// Tokens that show a term in a version spell it there, wherever they are.
pub fn terms_are_read_again()
    ensures { (version : ℕ) (f : SkolemTerm) (tokens : List Token) → ShowsTerm version f tokens
        → (w : WrittenTerm) × term version tokens w × (term_kept w ≡ f) }
{}
