// A law of templates: a file of templates has one answer.

ghost use Rattle.std.specs.Prelude.{ℕ, List};
ghost use Rattle.template_reader.specs.OneAnswer.{HasOneAnswer};

/// The contract of `crate::read_templates` admits one answer besides out of memory.
pub fn a_file_of_templates_has_one_answer()
    ensures { (limit : ℕ) (bytes : List ℕ) → HasOneAnswer limit bytes }
{}
