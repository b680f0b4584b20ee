// The collections of objects, and those of attributes.
ghost use Rattle.std.specs.Prelude.{◌≡◌, ◌∷◌, ◌++◌, OnOk, IfSome, IfNone, List, [], false};
ghost use Rattle.std.specs.BTreeSet.{insert_key};
ghost use Rattle.sd_value.specs.Order.{bytes_cmp};
ghost use Rattle.sd_ddl.specs.declared.part.Part.{Part as AnyPart};
ghost use Rattle.sd_ddl.specs.Kinds.{Name, same_name};
ghost use Rattle.sd_ddl.specs.Tables.{names_of, HasCollections, HasGivers};

use crate::part::Part;
use sd_value::{NoMemory, Str};
use std::alloc::Global;
use std::collections::{BTreeMap, BTreeSet};

/// The collections of each object, or those whose directives give each attribute a kind, as far as they were reported.
#[derive(Drop)]
pub(crate) struct Collections {
    of: BTreeMap<Str, BTreeSet<Str>>,
}

impl Collections {
    /// No name has a collection.
    pub(crate) fn new(alloc: Global) -> Collections
        ensures { (object : Name) → names_of result object ≡ [] }
    {
        Collections {
            of: BTreeMap::new(alloc),
        }
    }

    /// One more collection of a name.
    pub(crate) fn add(
        &mut self,
        alloc: Global,
        object: &Str,
        collection: &Str,
    ) -> Result<(), NoMemory>
        ensures here { OnOk result
            (names_of self.new object.now
            ≡ insert_key bytes_cmp (names_of self.old object.now) collection.now) }
        ensures others { OnOk result
            ((o : Name) → same_name object.now o ≡ false
            → names_of self.new o ≡ names_of self.old o) }
    {
        let names = self
            .of
            .entry(object.copy(alloc)?)?
            .or_insert(BTreeSet::new(alloc));
        names.insert(collection.copy(alloc)?)?;
        Ok(())
    }

    /// Adds the collection that a part reports.
    pub(crate) fn add_part(&mut self, alloc: Global, part: &Part) -> Result<(), NoMemory>
        ensures { OnOk result
            ((front : List AnyPart) → HasCollections front self.old
            → HasCollections (front ++ part.now ∷ []) self.new) }
    {
        match part {
            Part::Member(collection, object) => self.add(alloc, object, &collection.text),
            Part::Gives(_) | Part::Node(_) | Part::Edge(_, _, _) => Ok(()),
        }
    }

    /// Adds the collection whose directive gives an attribute a kind.
    pub(crate) fn add_giver(&mut self, alloc: Global, part: &Part) -> Result<(), NoMemory>
        ensures { OnOk result
            ((front : List AnyPart) → HasGivers front self.old
            → HasGivers (front ++ part.now ∷ []) self.new) }
    {
        match part {
            Part::Gives(giving) => self.add(alloc, &giving.attribute, &giving.collection),
            Part::Member(_, _) | Part::Node(_) | Part::Edge(_, _, _) => Ok(()),
        }
    }

    /// The collections of a name.
    pub(crate) fn names(&self, object: &Str) -> Option<&BTreeSet<Str>>
        ensures some { IfSome result (λ names. names.now.keys ≡ names_of self.now object.now) }
        ensures none { IfNone result (names_of self.now object.now ≡ []) }
    {
        self.of.get(object)
    }
}
