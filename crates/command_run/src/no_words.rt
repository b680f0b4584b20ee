// Why a run has no words.
use sd_value::NoMemory;
use std::alloc::AllocFailed;
use std::io;

/// Why a run has no words: the system doesn't give them, or one of them isn't UTF-8; or out of memory.
#[derive(Clone, Copy, Debug, PartialEq, Eq)]
pub enum NoWords {
    Unreadable,
    NoMemory,
}

impl From<NoMemory> for NoWords {
    ghost use Rattle.std.specs.Prelude.{◌≡◌};
    ghost use Rattle.command_run.specs.declared.no_words.NoWords.TheVariants as reason;

    ghost from_gives = { λ _ r. r ≡ reason.NoMemory };

    fn from(_: NoMemory) -> Self {
        NoWords::NoMemory
    }
}

impl<T: Drop> From<AllocFailed<T>> for NoWords {
    ghost use Rattle.std.specs.Prelude.{◌≡◌};
    ghost use Rattle.command_run.specs.declared.no_words.NoWords.TheVariants as reason;

    ghost from_gives = { λ _ r. r ≡ reason.NoMemory };

    fn from(_refused: AllocFailed<T>) -> Self {
        NoWords::NoMemory
    }
}

impl From<io::Error> for NoWords {
    ghost use Rattle.std.specs.Prelude.{◌≡◌};
    ghost use Rattle.std.specs.IoError.{error_kind};
    ghost use Rattle.std.specs.declared.io.ErrorKind.TheVariants.{OutOfMemory};
    ghost use Rattle.command_run.specs.declared.no_words.NoWords.TheVariants as reason;

    ghost from_gives = { λ error r. (error_kind error ≡ OutOfMemory → r ≡ reason.NoMemory)
        × ((error_kind error ≡ OutOfMemory → ⊥) → r ≡ reason.Unreadable) };

    fn from(error: io::Error) -> Self {
        if error.kind() == io::ErrorKind::OutOfMemory {
            NoWords::NoMemory
        } else {
            NoWords::Unreadable
        }
    }
}
