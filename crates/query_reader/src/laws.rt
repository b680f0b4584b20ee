// A law of queries: a query's text has one answer.

ghost use Rattle.std.specs.Prelude.{ℕ, List};
ghost use Rattle.query_reader.specs.OneAnswer.{HasOneAnswer};

/// The contract of `crate::read_query` admits one answer besides out of memory.
pub fn a_query_text_has_one_answer()
    ensures { (limit : ℕ) (bytes : List ℕ) → HasOneAnswer limit bytes }
{}
