// Laws of texts and their tokens: a text has one list of tokens, or one first fault.

ghost use Rattle.std.specs.Prelude.{ℕ, List};
ghost use Rattle.token_reader.specs.Answers.{HasOneTokenList, HasRealTokens};

/// A text has one list of tokens, or one first fault.
#[tactic(auto, using(crate::proofs::Tokens::one_token_list))]
pub fn a_text_has_one_token_list()
    ensures { (limit : ℕ) (bytes : List ℕ) → HasOneTokenList limit bytes }
{}

/// Each token of a text is one that a text can have, by itself.
pub fn tokens_of_a_text_are_real()
    ensures { (limit : ℕ) (bytes : List ℕ) → HasRealTokens limit bytes }
{}
