// Why a JSON text is not read to its end.
use sd_value::{NoMemory, Str};
use std::alloc::AllocError;

/// Why a JSON text is refused, and at which value. A place is a JSON Pointer (RFC 6901), empty for the whole.
#[derive(Debug, Drop)]
pub enum JsonRefusal {
    /// The bytes are no UTF-8, or the crate `serde_json` reads them as no value.
    NotJson,
    /// This number is no integer of 64 bits.
    NotInteger(Str),
    /// This value has to be a record or a list of records, and is none.
    NotRecords(Str),
    /// What this value states doesn't fit.
    TooManyEdges(Str),
    TooManyNodes(Str),
    NoMemory,
}

impl From<AllocError> for JsonRefusal {
    ghost use Rattle.std.specs.Prelude.{◌≡◌};
    ghost use Rattle.json_source.specs.declared.refusal.JsonRefusal.TheVariants.{NoMemory as OutOfMemory};

    ghost from_gives = { λ _ e. e ≡ OutOfMemory };

    fn from(_error: AllocError) -> JsonRefusal {
        JsonRefusal::NoMemory
    }
}

impl From<NoMemory> for JsonRefusal {
    ghost use Rattle.std.specs.Prelude.{◌≡◌};
    ghost use Rattle.json_source.specs.declared.refusal.JsonRefusal.TheVariants.{NoMemory as OutOfMemory};

    ghost from_gives = { λ _ e. e ≡ OutOfMemory };

    fn from(_error: NoMemory) -> JsonRefusal {
        JsonRefusal::NoMemory
    }
}
