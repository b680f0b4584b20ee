//! The grammar of BibTeX texts, that they are read by it, and lemmas for grammars whose limits may
//! be passed by a word.
#![tactic(auto)]

ghost use Rattle.std.specs.Prelude.{◌≡◌, List, ℕ};
ghost use Rattle.bibtex_spec.specs.Macros.{MacroTexts};
ghost use Rattle.bibtex_laws.specs.Grammar.{Phrase, strict, text};

/// A text spells one list of phrases at most, by its macros, each where there is room for it, and within 64 braces.
pub fn a_text_spells_one_list()
    ensures { (first : MacroTexts) (bytes : List ℕ) (phrases others : List Phrase)
        → text strict first bytes phrases → text strict first bytes others → phrases ≡ others }
{}
