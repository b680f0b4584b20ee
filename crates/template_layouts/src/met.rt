//! What reading a file meets.

ghost use Rattle.std.specs.Prelude.{◌≡◌};
ghost use Rattle.template_layouts.specs.declared.met.Halted.TheVariants.{NoMemory};

use crate::refusal::TmplRefusal;
use std::alloc::{AllocError, AllocFailed};

/// What is told, and the item at which it is met.
#[derive(Clone, Copy, Debug, PartialEq, Eq)]
pub struct Met {
    pub place: u64,
    pub refusal: TmplRefusal,
}

/// Why reading stopped.
#[derive(Clone, Copy, Debug, PartialEq, Eq)]
pub enum Halted {
    Met(Met),
    NoMemory,
}

impl From<AllocError> for Halted {
    ghost from_gives = { λ _ e. e ≡ NoMemory };

    fn from(_e: AllocError) -> Self {
        Halted::NoMemory
    }
}

impl<T: Drop> From<AllocFailed<T>> for Halted {
    ghost from_gives = { λ _ e. e ≡ NoMemory };

    fn from(_e: AllocFailed<T>) -> Self {
        Halted::NoMemory
    }
}

impl From<sd_value::NoMemory> for Halted {
    ghost from_gives = { λ _ e. e ≡ NoMemory };

    fn from(_e: sd_value::NoMemory) -> Self {
        Halted::NoMemory
    }
}
