// Why a CSV text is not read to its end.
use sd_value::NoMemory;
use std::alloc::AllocError;

/// Why a CSV text is refused, and at which record or column, counted from 0. The header is record 0.
#[derive(Clone, Copy, Debug, PartialEq, Eq)]
pub enum CsvRefusal {
    /// This record has a field that is no UTF-8.
    NotUtf8(u64),
    /// This column of the header has no label.
    EmptyLabel(u64),
    /// This record has another number of fields than the header.
    Ragged(u64),
    /// What this record states doesn't fit.
    TooManyEdges(u64),
    TooManyNodes(u64),
    NoMemory,
}

impl From<NoMemory> for CsvRefusal {
    ghost use Rattle.std.specs.Prelude.{◌≡◌};
    ghost use Rattle.csv_source.specs.declared.refusal.CsvRefusal.TheVariants.{NoMemory as OutOfMemory};

    ghost from_gives = { λ _ e. e ≡ OutOfMemory };

    fn from(_error: NoMemory) -> CsvRefusal {
        CsvRefusal::NoMemory
    }
}

impl From<AllocError> for CsvRefusal {
    ghost use Rattle.std.specs.Prelude.{◌≡◌};
    ghost use Rattle.csv_source.specs.declared.refusal.CsvRefusal.TheVariants.{NoMemory as OutOfMemory};

    ghost from_gives = { λ _ e. e ≡ OutOfMemory };

    fn from(_error: AllocError) -> CsvRefusal {
        CsvRefusal::NoMemory
    }
}
