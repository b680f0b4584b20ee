// Why a BibTeX text is not read to its end.
use sd_value::NoMemory;
use std::alloc::AllocError;

/// Why a BibTeX text is refused, and at which byte.
#[derive(Clone, Copy, Debug, PartialEq, Eq)]
pub enum BibRefusal {
    /// No text of the grammar goes on with this byte, or the text ends too early.
    Expected(u64),
    /// This name is no macro that was defined before.
    UnknownMacro(u64),
    /// This brace of a value is within 64 that are open.
    TooDeep(u64),
    /// With the text of this macro its value has more than 1,048,576 bytes.
    TooLarge(u64),
    /// What the entry of this key states doesn't fit.
    TooManyEdges(u64),
    TooManyNodes(u64),
    NoMemory,
}

impl From<NoMemory> for BibRefusal {
    ghost use Rattle.std.specs.Prelude.{◌≡◌};
    ghost use Rattle.bibtex_source.specs.declared.refusal.BibRefusal.TheVariants.{NoMemory as OutOfMemory};

    ghost from_gives = { λ _ e. e ≡ OutOfMemory };

    fn from(_error: NoMemory) -> BibRefusal {
        BibRefusal::NoMemory
    }
}

impl From<AllocError> for BibRefusal {
    ghost use Rattle.std.specs.Prelude.{◌≡◌};
    ghost use Rattle.bibtex_source.specs.declared.refusal.BibRefusal.TheVariants.{NoMemory as OutOfMemory};

    ghost from_gives = { λ _ e. e ≡ OutOfMemory };

    fn from(_error: AllocError) -> BibRefusal {
        BibRefusal::NoMemory
    }
}
