// How data files are read.
ghost use Rattle.std.specs.Prelude.{◌≡◌};
ghost use Rattle.data_source.specs.Rules.{rules_of as rules_by};

use bibtex_source::BibRules;
use csv_source::CsvRules;
use json_source::JsonRules;

/// How data files are read. There is one way to read the data text and databases.
#[derive(Clone, Copy, Debug, PartialEq, Eq)]
pub struct SourceRules {
    /// The end of a file's name counts in capitals too.
    pub capitals: bool,
    pub csv: CsvRules,
    pub json: JsonRules,
    pub bibtex: BibRules,
}

impl SourceRules {
    /// The formats as they are defined.
    pub const STRICT: SourceRules = SourceRules {
        capitals: false,
        csv: CsvRules::STRICT,
        json: JsonRules::STRICT,
        bibtex: BibRules::STRICT,
    };

    /// CSV, JSON and BibTeX as people have them.
    pub const LENIENT: SourceRules = SourceRules {
        capitals: true,
        csv: CsvRules::LENIENT,
        json: JsonRules::LENIENT,
        bibtex: BibRules::LENIENT,
    };

    /// The lenient rules if that is asked for, and else the strict ones.
    pub fn of(lenient: bool) -> SourceRules
        ensures { result ≡ rules_by lenient }
    {
        if lenient {
            SourceRules::LENIENT
        } else {
            SourceRules::STRICT
        }
    }
}
