//! Each data file has an answer: the graph that it states, or its first fault.
#![tactic(auto)]

ghost use Rattle.std.specs.Prelude.{◌≡◌, ℕ, List, Option, Result, Err, ⊤};
ghost use Rattle.sd_graph.specs.Statement.{Building};
ghost use Rattle.sd_ddl.specs.declared.refusal.DdlRefusal.{DdlRefusal};
ghost use Rattle.sd_ddl.specs.Reads as ddl;
ghost use Rattle.ddl_laws.specs.OneAnswer.{IsSettled};
ghost use Rattle.csv_source.specs.declared.rules.CsvRules.{CsvRules};
ghost use Rattle.csv_source.specs.declared.refusal.CsvRefusal.{CsvRefusal};
ghost use Rattle.csv_source.specs.declared.refusal.CsvRefusal.TheVariants as csv_refusal;
ghost use Rattle.csv_source.specs.Reads as csv;
ghost use Rattle.json_source.specs.declared.rules.JsonRules.{JsonRules};
ghost use Rattle.json_source.specs.declared.refusal.JsonRefusal.{JsonRefusal};
ghost use Rattle.json_source.specs.declared.refusal.JsonRefusal.TheVariants as json_refusal;
ghost use Rattle.json_source.specs.Reads as json;
ghost use Rattle.bibtex_source.specs.declared.rules.BibRules.{BibRules};
ghost use Rattle.bibtex_source.specs.declared.refusal.BibRefusal.{BibRefusal};
ghost use Rattle.bibtex_source.specs.declared.refusal.BibRefusal.TheVariants as bib_refusal;
ghost use Rattle.bibtex_source.specs.Reads as bibtex;
ghost use Rattle.text_source.specs.declared.refusal.TextFileRefusal.{TextFileRefusal};
ghost use Rattle.text_source.specs.declared.refusal.TextFileRefusal.TheVariants as text_refusal;
ghost use Rattle.text_source.specs.Reads as text_file;
ghost use Rattle.data_source.specs.declared.rules.SourceRules.{SourceRules};
ghost use Rattle.data_source.specs.declared.refusal.SourceRefusal.{SourceRefusal};
ghost use Rattle.data_source.specs.declared.refusal.SourceRefusal.TheVariants as source_refusal;
ghost use Rattle.data_source.specs.declared.format.Format.TheVariants.{Database};
ghost use Rattle.data_source.specs.Formats.{format_of};
ghost use Rattle.data_source.specs.Takes.{Takes};

/// Each data file but a database has an answer besides out of memory, whatever its path and bytes and
/// the graph that it is read into, and leaves a graph.
pub fn each_data_file_has_an_answer()
    ensures { (rules : SourceRules) (path : List ℕ) (limit : ℕ) (bytes : List ℕ) (b : Building)
        → ((stem : List ℕ) → format_of rules path ≡ Database stem → ⊥) → (c : Building) × (r : Result ⊤ SourceRefusal) × (r ≡ Err source_refusal.NoMemory → ⊥)
        × Takes rules path limit bytes b c r }
{}

/// That a data file, a database too, had no such answer is absurd.
pub fn no_data_file_is_without_an_answer()
    ensures { (rules : SourceRules) (path : List ℕ) (limit : ℕ) (bytes : List ℕ) (b : Building)
        → ((c : Building) (r : Result ⊤ SourceRefusal) → (r ≡ Err source_refusal.NoMemory → ⊥)
        → Takes rules path limit bytes b c r → ⊥) → ⊥ }
{}

/// Each CSV text has an answer besides out of memory, whatever graph it is read into, and leaves a
/// graph.
pub fn each_csv_text_has_an_answer()
    ensures { (rules : CsvRules) (stem bytes : List ℕ) (b : Building) → (c : Building)
        × (r : Result ⊤ CsvRefusal) × (r ≡ Err csv_refusal.NoMemory → ⊥)
        × csv.Reads rules stem bytes b c r }
{}

/// So has each JSON text.
pub fn each_json_text_has_an_answer()
    ensures { (rules : JsonRules) (stem bytes : List ℕ) (b : Building) → (c : Building)
        × (r : Result ⊤ JsonRefusal) × (r ≡ Err json_refusal.NoMemory → ⊥)
        × json.Reads rules stem bytes b c r }
{}

/// So has each text file.
pub fn each_text_file_has_an_answer()
    ensures { (stem : List ℕ) (folder : Option (List ℕ)) (bytes : List ℕ) (b : Building) → (c : Building)
        × (r : Result ⊤ TextFileRefusal) × (r ≡ Err text_refusal.NoMemory → ⊥)
        × text_file.Reads stem folder bytes b c r }
{}

/// So has each BibTeX text.
pub fn each_bibtex_text_has_an_answer()
    ensures { (rules : BibRules) (stem bytes : List ℕ) (b : Building) → (c : Building)
        × (r : Result ⊤ BibRefusal) × (r ≡ Err bib_refusal.NoMemory → ⊥)
        × bibtex.Reads rules stem bytes b c r }
{}

/// Each data text has an answer besides out of memory, whatever graph it is read into, and leaves a
/// graph: it is taken whole, or has a first fault.
pub fn each_data_text_has_an_answer()
    ensures { (limit : ℕ) (bytes : List ℕ) (b : Building) → (c : Building)
        × (r : Result ⊤ DdlRefusal) × IsSettled r × ddl.Reads limit bytes b c r }
{}
