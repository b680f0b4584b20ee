// The numbers and places of refusals.
ghost use Rattle.std.specs.Prelude.{◌≡◌};
ghost use Rattle.data_source.specs.Told.{ddl_told, csv_told, json_told, bib_told, db_told, text_file_told};
ghost use Rattle.data_source.specs.declared.refusal.SourceRefusal.TheVariants.{NoMemory as OutOfMemory};

use crate::numbered::told_of_text;
use bibtex_source::BibRefusal;
use csv_source::CsvRefusal;
use json_source::JsonRefusal;
use run_report::Place;
use sd_ddl::DdlRefusal;
use sd_value::NoMemory;
use sqlite_source::DbRefusal;
use text_source::TextFileRefusal;
use token_reader::TextRefusal;

/// Why a data file is refused: the number of the refusal and its place.
#[derive(Debug, Drop)]
pub enum SourceRefusal {
    Refused { number: u32, place: Place },
    NoMemory,
}

fn refused(number: u32, place: Place) -> SourceRefusal
    ensures { result ≡ SourceRefusal.Refused number place }
{
    SourceRefusal::Refused { number, place }
}

// A text that has no tokens, or whose tokens fit no data text.
fn refused_text(refusal: TextRefusal) -> SourceRefusal
    ensures { result ≡ ddl_told (DdlRefusal.Text refusal) }
{
    match told_of_text(&refusal, 31) {
        Ok(told) => refused(told.number, Place::At(told.at)),
        Err(NoMemory) => SourceRefusal::NoMemory,
    }
}

impl From<NoMemory> for SourceRefusal {
    ghost from_gives = { λ _ e. e ≡ OutOfMemory };

    fn from(_error: NoMemory) -> SourceRefusal {
        SourceRefusal::NoMemory
    }
}

impl From<DdlRefusal> for SourceRefusal {
    ghost from_gives = { λ e told. told ≡ ddl_told e };

    fn from(refusal: DdlRefusal) -> SourceRefusal {
        match refusal {
            DdlRefusal::Text(refusal) => refused_text(refusal),
            DdlRefusal::KindConflict(at) => refused(32, Place::At(at)),
            DdlRefusal::TooManyEdges(at) => refused(11, Place::At(at)),
            DdlRefusal::TooManyNodes(at) => refused(12, Place::At(at)),
        }
    }
}

impl From<CsvRefusal> for SourceRefusal {
    ghost from_gives = { λ e told. told ≡ csv_told e };

    fn from(refusal: CsvRefusal) -> SourceRefusal {
        match refusal {
            CsvRefusal::NotUtf8(row) => refused(41, Place::Row(row)),
            CsvRefusal::EmptyLabel(column) => refused(42, Place::Column(column)),
            CsvRefusal::Ragged(row) => refused(43, Place::Row(row)),
            CsvRefusal::TooManyEdges(row) => refused(11, Place::Row(row)),
            CsvRefusal::TooManyNodes(row) => refused(12, Place::Row(row)),
            CsvRefusal::NoMemory => SourceRefusal::NoMemory,
        }
    }
}

impl From<JsonRefusal> for SourceRefusal {
    ghost from_gives = { λ e told. told ≡ json_told e };

    fn from(refusal: JsonRefusal) -> SourceRefusal {
        match refusal {
            JsonRefusal::NotJson => refused(44, Place::At(0)),
            JsonRefusal::NotInteger(path) => refused(45, Place::Path(path)),
            JsonRefusal::NotRecords(path) => refused(46, Place::Path(path)),
            JsonRefusal::TooManyEdges(path) => refused(11, Place::Path(path)),
            JsonRefusal::TooManyNodes(path) => refused(12, Place::Path(path)),
            JsonRefusal::NoMemory => SourceRefusal::NoMemory,
        }
    }
}

impl From<BibRefusal> for SourceRefusal {
    ghost from_gives = { λ e told. told ≡ bib_told e };

    fn from(refusal: BibRefusal) -> SourceRefusal {
        match refusal {
            BibRefusal::Expected(at) => refused(121, Place::At(at)),
            BibRefusal::UnknownMacro(at) => refused(122, Place::At(at)),
            BibRefusal::TooDeep(at) => refused(123, Place::At(at)),
            BibRefusal::TooLarge(at) => refused(124, Place::At(at)),
            BibRefusal::TooManyEdges(at) => refused(11, Place::At(at)),
            BibRefusal::TooManyNodes(at) => refused(12, Place::At(at)),
            BibRefusal::NoMemory => SourceRefusal::NoMemory,
        }
    }
}

impl From<DbRefusal> for SourceRefusal {
    ghost from_gives = { λ e told. told ≡ db_told e };

    fn from(refusal: DbRefusal) -> SourceRefusal {
        match refusal {
            DbRefusal::NotDatabase => refused(171, Place::At(0)),
            DbRefusal::Damaged(path) => refused(172, Place::Path(path)),
            DbRefusal::NotRead(path) => refused(173, Place::Path(path)),
            DbRefusal::IsBlob(path) => refused(174, Place::Path(path)),
            DbRefusal::NotUtf8(path) => refused(41, Place::Path(path)),
            DbRefusal::TooManyEdges(path) => refused(11, Place::Path(path)),
            DbRefusal::TooManyNodes(path) => refused(12, Place::Path(path)),
            DbRefusal::NoMemory => SourceRefusal::NoMemory,
        }
    }
}

impl From<TextFileRefusal> for SourceRefusal {
    ghost from_gives = { λ e told. told ≡ text_file_told e };

    fn from(refusal: TextFileRefusal) -> SourceRefusal {
        match refusal {
            TextFileRefusal::NotUtf8(at) => refused(41, Place::At(at)),
            TextFileRefusal::Expected(at) => refused(161, Place::At(at)),
            TextFileRefusal::TooManyEdges(at) => refused(11, Place::At(at)),
            TextFileRefusal::TooManyNodes(at) => refused(12, Place::At(at)),
            TextFileRefusal::NoMemory => SourceRefusal::NoMemory,
        }
    }
}
