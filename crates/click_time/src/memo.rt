//! What was asked for a page in hand.
ghost use Rattle.std.specs.Prelude.{◌≡◌, []};

use crate::known::Known;
use sd_value::{Str, Term, Value};
use std::alloc::Global;

/// The answers of a view by what was asked.
#[derive(Drop)]
pub(crate) struct Memo {
    pub(crate) terms: Known<Term, bool>,
    pub(crate) ends: Known<(Value, Str), Vec<Value>>,
    pub(crate) gathered: Known<Str, Vec<Value>>,
    pub(crate) templates: Known<Value, Option<u32>>,
}

impl Memo {
    /// Nothing was asked.
    pub(crate) fn new(alloc: Global) -> Memo
        ensures terms { result.terms.told.entries ≡ [] }
        ensures ends { result.ends.told.entries ≡ [] }
        ensures gathered { result.gathered.told.entries ≡ [] }
        ensures templates { result.templates.told.entries ≡ [] }
    {
        Memo {
            terms: Known::new(alloc),
            ends: Known::new(alloc),
            gathered: Known::new(alloc),
            templates: Known::new(alloc),
        }
    }
}
