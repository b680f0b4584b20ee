// Why a text file is refused.
use sd_value::NoMemory;
use std::alloc::AllocError;

/// Why a text file is refused, and at which byte from 0.
#[derive(Clone, Copy, Debug, PartialEq, Eq)]
pub enum TextFileRefusal {
    /// The bytes from here on are no UTF-8.
    NotUtf8(u64),
    /// The line that begins here can't stand in front matter, or not in this place.
    Expected(u64),
    /// What is stated here doesn't fit.
    TooManyEdges(u64),
    TooManyNodes(u64),
    NoMemory,
}

impl From<NoMemory> for TextFileRefusal {
    ghost use Rattle.std.specs.Prelude.{◌≡◌};
    ghost use Rattle.text_source.specs.declared.refusal.TextFileRefusal.TheVariants.{NoMemory as OutOfMemory};

    ghost from_gives = { λ _ e. e ≡ OutOfMemory };

    fn from(_error: NoMemory) -> TextFileRefusal {
        TextFileRefusal::NoMemory
    }
}

impl From<AllocError> for TextFileRefusal {
    ghost use Rattle.std.specs.Prelude.{◌≡◌};
    ghost use Rattle.text_source.specs.declared.refusal.TextFileRefusal.TheVariants.{NoMemory as OutOfMemory};

    ghost from_gives = { λ _ e. e ≡ OutOfMemory };

    fn from(_error: AllocError) -> TextFileRefusal {
        TextFileRefusal::NoMemory
    }
}
