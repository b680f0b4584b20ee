//! Each text has an answer: the value that it spells, or its first fault.
#![tactic(auto)]

ghost use Rattle.std.specs.Prelude.{◌≡◌, ℕ, List, Result, Err};
ghost use Rattle.sd_lex.specs.declared.token.Token.{Token};
ghost use Rattle.sd_lex.specs.declared.refusal.LexRefusal.{LexRefusal};
ghost use Rattle.sd_lex.specs.Lexing.{IsTextOrFault};
ghost use Rattle.tmpl.specs.Body.{TemplateFile};
ghost use Rattle.template_layouts.specs.declared.refusal.TmplRefusal.{TmplRefusal};
ghost use Rattle.template_layouts.specs.declared.refusal.TmplRefusal.TheVariants.{NoMemory as OutOfMemory};
ghost use Rattle.template_reader.specs.Faults.{IsTemplatesAnswer};
ghost use Rattle.command_trial.specs.Ends.{IsTrial};

mod tokens;

pub use tokens::{
    each_edit_has_an_answer, each_query_has_an_answer, each_script_has_an_answer,
    each_text_of_constraints_has_an_answer,
};

/// Each text has tokens, or a first fault of the lexer.
pub fn each_text_has_tokens()
    ensures { (limit : ℕ) (bytes : List ℕ)
        → (r : Result (List Token) LexRefusal) × IsTextOrFault limit bytes r }
{}

/// Each file of templates has an answer besides out of memory: its templates, or its first fault.
pub fn each_file_of_templates_has_an_answer()
    ensures { (limit : ℕ) (bytes : List ℕ) → (r : Result TemplateFile TmplRefusal)
        × (r ≡ Err OutOfMemory → ⊥) × IsTemplatesAnswer limit bytes r }
{}

/// The trial of any number of entries has a text.
pub fn each_trial_is_answered()
    ensures { (entries : ℕ) → (text : List ℕ) × IsTrial entries text }
{}
