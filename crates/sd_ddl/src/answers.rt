// What was looked up in tables, kept for the next time.
ghost use Rattle.std.specs.Prelude.{◌≡◌, ◌||◌, if◌then◌else◌, ◌&&◌, None, Some, IfOk, OnOk};
ghost use Rattle.sd_ddl.specs.Kinds.{Name, same_name};
ghost use Rattle.sd_ddl.specs.Tables.{answer_of};

use crate::kinds::{StatedKinds, key_of};
use sd_value::{NoMemory, Str};
use std::alloc::Global;
use std::collections::BTreeMap;

/// What was told of some objects and attributes.
#[derive(Drop)]
pub(crate) struct Answers {
    told: BTreeMap<(Str, Str), StatedKinds>,
}

impl Answers {
    /// Nothing was looked up.
    pub(crate) fn new(alloc: Global) -> Answers
        ensures { (object attribute : Name) → answer_of result object attribute ≡ None }
    {
        Answers {
            told: BTreeMap::new(alloc),
        }
    }

    /// What was told of the object and the attribute, if that was looked up.
    pub(crate) fn get(
        &self,
        alloc: Global,
        object: &Str,
        attribute: &Str,
    ) -> Result<Option<StatedKinds>, NoMemory>
        ensures { IfOk result (λ told. told ≡ answer_of self.now object.now attribute.now) }
    {
        if self.told.is_empty() {
            return Ok(None);
        }
        let key = key_of(alloc, object, attribute)?;
        Ok(self.told.get(&key).copied())
    }

    /// Keeps what was told of the object and the attribute.
    pub(crate) fn add(
        &mut self,
        alloc: Global,
        object: &Str,
        attribute: &Str,
        told: StatedKinds,
    ) -> Result<(), NoMemory>
        ensures { OnOk result
            ((o a : Name) → answer_of self.new o a
            ≡ (if same_name object.now o && same_name attribute.now a then Some told
            else answer_of self.old o a)) }
    {
        let key = key_of(alloc, object, attribute)?;
        self.told.insert(key, told)?;
        Ok(())
    }
}
