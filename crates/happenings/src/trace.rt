// What a log shows of itself.
ghost use Rattle.std.specs.Prelude.{List};
ghost use Rattle.happenings.specs.Happening.{Happening};

use crate::log::Log;

/// A list of what happened. Code that is generic over it can neither make one nor add to one nor drop one: devices alone
/// add, each what was done to it.
pub trait Trace {
    ghost events: { Self → List Happening };
}

impl Trace for Log {
    ghost events = { λ log. log.events };
}
