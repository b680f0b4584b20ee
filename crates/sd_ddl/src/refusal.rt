// Why a data text is not read into a graph.
ghost use Rattle.std.specs.Prelude.{◌≡◌, ◌≢◌, true, false};
ghost use Rattle.token_reader.specs.declared.refusal.TextRefusal.TheVariants.{NoMemory as OutOfMemory};
ghost use Rattle.sd_ddl.specs.declared.refusal.DdlRefusal.TheVariants.{Text};
ghost use Rattle.sd_ddl.specs.Reads.{of_stop};

use crate::conflict::Stop;
use sd_value::NoMemory;
use token_reader::TextRefusal;

/// Why a data text is refused, and where. Those of its text come first, and then the first of the others.
#[derive(Clone, Copy, Debug, PartialEq, Eq)]
pub enum DdlRefusal {
    /// The text has no tokens, or they don't fit the grammar.
    Text(TextRefusal),
    /// A kind that differs from an earlier one, or a text to which two kinds are given.
    KindConflict(u64),
    TooManyEdges(u64),
    TooManyNodes(u64),
}

impl DdlRefusal {
    /// Whether the reader was out of memory, so that nothing is said of the text.
    pub fn is_out_of_memory(&self) -> bool
        ensures is { result ≡ true → self.now ≡ DdlRefusal.Text TextRefusal.NoMemory }
        ensures no { result ≡ false → self.now ≢ DdlRefusal.Text TextRefusal.NoMemory }
    {
        *self == DdlRefusal::Text(TextRefusal::NoMemory)
    }
}

impl From<TextRefusal> for DdlRefusal {
    ghost from_gives = { λ e r. r ≡ Text e };

    fn from(e: TextRefusal) -> Self {
        DdlRefusal::Text(e)
    }
}

impl From<Stop> for DdlRefusal {
    ghost from_gives = { λ e r. r ≡ of_stop e };

    fn from(e: Stop) -> Self {
        match e {
            Stop::KindConflict(at) => DdlRefusal::KindConflict(at),
            Stop::TooManyEdges(at) => DdlRefusal::TooManyEdges(at),
            Stop::TooManyNodes(at) => DdlRefusal::TooManyNodes(at),
            Stop::NoMemory => DdlRefusal::Text(TextRefusal::NoMemory),
        }
    }
}

impl From<NoMemory> for DdlRefusal {
    ghost from_gives = { λ _ e. e ≡ Text OutOfMemory };

    fn from(_e: NoMemory) -> Self {
        DdlRefusal::Text(TextRefusal::NoMemory)
    }
}
