// Macros by their names.
ghost use Rattle.std.specs.Prelude.{◌≡◌, IfOk, OnOk, List, ℕ};
ghost use Rattle.bibtex_spec.specs.Macros.{MacroTexts, text_of, with_macro, months as month_macros};

use bibtex_bytes::lowered;
use sd_value::{NoMemory, Str};
use std::alloc::Global;
use std::collections::BTreeMap;
use std::marker::Model;

/// The texts that names were defined as, and whether names are lenient.
#[derive(Drop)]
pub(crate) struct Macros {
    of: BTreeMap<Str, Str>,
    pub(crate) stand: bool,
}

impl Model for Macros {
    ghost Value = { MacroTexts };

    ghost view = { λ m. record { known = m.of.entries; stand = m.stand } };
}

impl Macros {
    /// The text that a name stands for as it is written, if it stands for one.
    pub(crate) fn text(&self, alloc: Global, written: &[u8]) -> Result<Option<Str>, NoMemory>
        ensures { IfOk result (λ text. text ≡ text_of self.now written.now) }
    {
        let name = Str::of(alloc, lowered(alloc, written)?)?;
        if let Some(text) = self.of.get(&name) {
            return Ok(Some(text.copy(alloc)?));
        }
        if self.stand {
            return Ok(Some(Str::new(alloc, written)?));
        }
        Ok(None)
    }

    /// Defines a name, perhaps anew.
    pub(crate) fn define(&mut self, name: Str, text: Str) -> Result<(), NoMemory>
        ensures { OnOk result (self.new ≡ with_macro self.old name text) }
    {
        self.of.insert(name, text)?;
        Ok(())
    }

    fn define_month(&mut self, alloc: Global, name: &[u8]) -> Result<(), NoMemory>
        ensures { OnOk result (self.new ≡ with_macro self.old name.now name.now) }
    {
        let name = Str::new(alloc, name)?;
        let text = name.copy(alloc)?;
        self.define(name, text)
    }
}

/// The months, by their first three letters; other names stand for themselves or for nothing.
#[tactic(auto, unfolding(bibtex_spec::specs::Macros::months))]
pub(crate) fn months(alloc: Global, stand: bool) -> Result<Macros, NoMemory>
    ensures { IfOk result (λ macros. macros ≡ month_macros stand) }
{
    let mut macros = Macros {
        of: BTreeMap::new(alloc),
        stand,
    };
    macros.define_month(alloc, b"jan")?;
    macros.define_month(alloc, b"feb")?;
    macros.define_month(alloc, b"mar")?;
    macros.define_month(alloc, b"apr")?;
    macros.define_month(alloc, b"may")?;
    macros.define_month(alloc, b"jun")?;
    macros.define_month(alloc, b"jul")?;
    macros.define_month(alloc, b"aug")?;
    macros.define_month(alloc, b"sep")?;
    macros.define_month(alloc, b"oct")?;
    macros.define_month(alloc, b"nov")?;
    macros.define_month(alloc, b"dec")?;
    Ok(macros)
}
