// Why a reader of bytes ended without a value.
ghost use Rattle.std.specs.Prelude.{◌≡◌};
ghost use Rattle.bibtex_source.specs.declared.halt.Halt.TheVariants.{NoMemory as OutOfMemory};

use sd_value::NoMemory;
use std::alloc::{AllocError, AllocFailed};

/// A reader's end without a value.
#[derive(Clone, Copy)]
pub(crate) enum Halt<'a> {
    /// The first of these bytes doesn't fit, or none is left.
    Expected(&'a [u8]),
    /// A macro begins here that isn't defined or makes its value too large, or a brace that is too deep.
    Limit(&'a [u8]),
    NoMemory,
}

impl From<AllocError> for Halt<'_> {
    ghost from_gives = { λ _ e. e ≡ OutOfMemory };

    fn from(_error: AllocError) -> Self {
        Halt::NoMemory
    }
}

impl<T: Drop> From<AllocFailed<T>> for Halt<'_> {
    ghost from_gives = { λ _ e. e ≡ OutOfMemory };

    fn from(_error: AllocFailed<T>) -> Self {
        Halt::NoMemory
    }
}

impl From<NoMemory> for Halt<'_> {
    ghost from_gives = { λ _ e. e ≡ OutOfMemory };

    fn from(_error: NoMemory) -> Self {
        Halt::NoMemory
    }
}
