// The kinds that directives give.
ghost use Rattle.std.specs.Prelude.{◌≡◌, ◌∷◌, ◌++◌, [], List, IfOk, OnOk, IsTrue, true};
ghost use Rattle.sd_ddl.specs.declared.part.Part.{Part as AnyPart};
ghost use Rattle.sd_ddl.specs.declared.part.Part.TheVariants.{Gives};
ghost use Rattle.sd_ddl.specs.declared.kinds.StatedKinds.TheVariants.{Nothing as NothingTold, One as OneTold};
ghost use Rattle.sd_ddl.specs.Kinds.{Name, given_by, told};
ghost use Rattle.sd_ddl.specs.Tables.{told_in, told_within, looked_up, told_of, both, is_several, tell};
ghost use Rattle.sd_ddl.specs.Tables.{HasGivings, HasCollections, HasGivers, Knows, names_of, is_conflict};

use crate::answers::Answers;
use crate::collections::Collections;
use crate::part::{Giving, Part};
use ddl_text::{Content, Kind};
use sd_value::{NoMemory, Str};
use std::alloc::Global;
use std::collections::{BTreeMap, BTreeSet};

/// Which kinds are reported.
#[derive(Clone, Copy)]
pub enum StatedKinds {
    Nothing,
    One(Kind),
    Several,
}

impl StatedKinds {
    /// What both report together.
    pub(crate) fn and(self, other: StatedKinds) -> StatedKinds
        ensures { result ≡ both self other }
    {
        match (self, other) {
            (StatedKinds::Nothing, told) => told,
            (told, StatedKinds::Nothing) => told,
            (StatedKinds::One(kind), StatedKinds::One(same)) if kind == same => StatedKinds::One(
                kind,
            ),
            (_, _) => StatedKinds::Several,
        }
    }

    fn is_several(self) -> bool
        ensures { result ≡ is_several self }
    {
        matches!(self, StatedKinds::Several)
    }
}

/// Two names as a key of a table.
pub(crate) fn key_of(
    alloc: Global,
    collection: &Str,
    attribute: &Str,
) -> Result<(Str, Str), NoMemory>
    ensures { IfOk result (λ key. key ≡ (collection.now, attribute.now)) }
{
    Ok((collection.copy(alloc)?, attribute.copy(alloc)?))
}

/// The kinds that were given so far, by collection and attribute.
#[derive(Drop)]
pub(crate) struct Givings {
    told: BTreeMap<(Str, Str), StatedKinds>,
}

impl Givings {
    /// Nothing is given.
    pub(crate) fn new(alloc: Global) -> Givings
        ensures { (collection attribute : Name)
            → told_in result collection attribute ≡ NothingTold }
    {
        Givings {
            told: BTreeMap::new(alloc),
        }
    }

    /// Whether no kind was given. Only a true answer means something.
    fn is_empty(&self) -> bool
        ensures { IsTrue result → (collection attribute : Name)
            → told_in self.now collection attribute ≡ NothingTold }
    {
        self.told.is_empty()
    }

    /// The kinds that were given to an attribute.
    pub(crate) fn told(
        &self,
        alloc: Global,
        collection: &Str,
        attribute: &Str,
    ) -> Result<StatedKinds, NoMemory>
        ensures { IfOk result (λ told. told ≡ told_in self.now collection.now attribute.now) }
    {
        let key = key_of(alloc, collection, attribute)?;
        Ok(self.told_at(&key))
    }

    fn told_at(&self, key: &(Str, Str)) -> StatedKinds
        ensures { result ≡ told_in self.now key.now.0 key.now.1 }
    {
        match self.told.get(key) {
            Some(told) => *told,
            None => StatedKinds::Nothing,
        }
    }

    /// One more giving.
    pub(crate) fn add(&mut self, alloc: Global, giving: &Giving) -> Result<(), NoMemory>
        ensures { OnOk result
            ((c a : Name)
            → told_in self.new c a
            ≡ both (told_in self.old c a) (told (given_by c a (Gives giving.now)))) }
    {
        let kind = giving.kind.kind;
        let told = self.told(alloc, &giving.collection, &giving.attribute)?;
        let key = (
            giving.collection.copy(alloc)?,
            giving.attribute.copy(alloc)?,
        );
        self.told.insert(key, told.and(StatedKinds::One(kind)))?;
        Ok(())
    }

    /// Adds what a part gives. After the parts of a front, the table has what these and this part give.
    pub(crate) fn add_part(&mut self, alloc: Global, part: &Part) -> Result<(), NoMemory>
        ensures { OnOk result
            ((front : List AnyPart) → HasGivings front self.old
            → HasGivings (front ++ part.now ∷ []) self.new) }
    {
        match part {
            Part::Gives(giving) => self.add(alloc, giving),
            Part::Node(_) | Part::Member(_, _) | Part::Edge(_, _, _) => Ok(()),
        }
    }
}

// So many collections are asked anew each time.
const FEW: usize = 8;

/// The kinds and the collections that a text reports.
#[derive(Drop)]
pub(crate) struct Kinds {
    givings: Givings,
    /// By attribute.
    givers: Collections,
    /// By object.
    collections: Collections,
    /// What is looked up in many collections is looked up once.
    answers: Answers,
}

impl Kinds {
    /// What these parts report.
    pub(crate) fn of(alloc: Global, parts: &[Part]) -> Result<Kinds, NoMemory>
        ensures { IfOk result (λ kinds. Knows parts.now kinds) }
    {
        let givings = givings_of(alloc, parts)?;
        if givings.is_empty() {
            // Collections report nothing then.
            let givers = Collections::new(alloc);
            let collections = Collections::new(alloc);
            return Ok(Kinds {
                givings,
                givers,
                collections,
                answers: Answers::new(alloc),
            });
        }
        let mut kinds = Kinds::by_tables(alloc, parts, givings)?;
        kinds.answer_parts(alloc, parts)?;
        Ok(kinds)
    }

    // The tables of these parts, whose kinds these are.
    fn by_tables(alloc: Global, parts: &[Part], givings: Givings) -> Result<Kinds, NoMemory>
        requires { HasGivings parts.now givings }
        ensures { IfOk result (λ kinds. Knows parts.now kinds) }
    {
        let givers = givers_of(alloc, parts)?;
        let collections = collections_of(alloc, parts)?;
        Ok(Kinds {
            givings,
            givers,
            collections,
            answers: Answers::new(alloc),
        })
    }

    // Whether the object has many collections, and many give the attribute a kind.
    fn is_long(&self, object: &Str, attribute: &Str) -> bool {
        match (self.collections.names(object), self.givers.names(attribute)) {
            (Some(names), Some(givers)) => names.len() > FEW && givers.len() > FEW,
            (_, _) => false,
        }
    }

    // Keeps what is told of an object's attribute, if that is long to look up.
    fn answer(&mut self, alloc: Global, object: &Str, attribute: &Str) -> Result<(), NoMemory>
        ensures { OnOk result
            ((o a : Name) → told_of self.new o a ≡ told_of self.old o a) }
    {
        if !self.is_long(object, attribute) {
            return Ok(());
        }
        match self.answers.get(alloc, object, attribute)? {
            Some(_) => Ok(()),
            None => {
                let told = self.look_up(alloc, object, attribute)?;
                self.answers.add(alloc, object, attribute, told)
            }
        }
    }

    // Keeps what is long to look up for a part.
    fn answer_part(&mut self, alloc: Global, part: &Part) -> Result<(), NoMemory>
        ensures { OnOk result
            ((o a : Name) → told_of self.new o a ≡ told_of self.old o a) }
    {
        match part {
            Part::Edge(object, attribute, _) => self.answer(alloc, object, attribute),
            Part::Gives(_) | Part::Node(_) | Part::Member(_, _) => Ok(()),
        }
    }

    // Keeps what is long to look up for these parts.
    fn answer_parts(&mut self, alloc: Global, parts: &[Part]) -> Result<(), NoMemory>
        ensures { OnOk result
            ((o a : Name) → told_of self.new o a ≡ told_of self.old o a) }
    {
        for part in parts {
            self.answer_part(alloc, part)?;
        }
        Ok(())
    }

    // The kinds that directives of these collections give the attribute.
    fn told_by_names(
        &self,
        alloc: Global,
        names: &BTreeSet<Str>,
        attribute: &Str,
    ) -> Result<StatedKinds, NoMemory>
        ensures { IfOk result (λ t. t ≡ tell
            (λ c. told_in self.now.givings c attribute.now) NothingTold names.now.keys) }
    {
        let mut told = StatedKinds::Nothing;
        for name in names.iter() {
            told = told.and(self.givings.told(alloc, name, attribute)?);
        }
        Ok(told)
    }

    // The kinds that the directive of the collection gives the attribute, if it is one of the names.
    fn told_within(
        &self,
        alloc: Global,
        names: &BTreeSet<Str>,
        attribute: &Str,
        collection: &Str,
    ) -> Result<StatedKinds, NoMemory>
        ensures { IfOk result (λ t. t
            ≡ told_within self.now.givings names.now.keys attribute.now collection.now) }
    {
        if names.contains(collection) {
            self.givings.told(alloc, collection, attribute)
        } else {
            Ok(StatedKinds::Nothing)
        }
    }

    // The kinds that these collections give the attribute, those of them that are among the names.
    fn told_by_givers(
        &self,
        alloc: Global,
        names: &BTreeSet<Str>,
        givers: &BTreeSet<Str>,
        attribute: &Str,
    ) -> Result<StatedKinds, NoMemory>
        ensures { IfOk result (λ t. t ≡ tell
            (told_within self.now.givings names.now.keys attribute.now) NothingTold
            givers.now.keys) }
    {
        let mut told = StatedKinds::Nothing;
        for giver in givers.iter() {
            told = told.and(self.told_within(alloc, names, attribute, giver)?);
        }
        Ok(told)
    }

    /// The kinds that directives of the object's collections give the attribute.
    pub(crate) fn told(
        &self,
        alloc: Global,
        object: &Str,
        attribute: &Str,
    ) -> Result<StatedKinds, NoMemory>
        ensures { IfOk result (λ t. t ≡ told_of self.now object.now attribute.now) }
    {
        match self.answers.get(alloc, object, attribute)? {
            Some(told) => Ok(told),
            None => self.look_up(alloc, object, attribute),
        }
    }

    // The same, by the collections of the object or those that give the attribute a kind.
    fn look_up(&self, alloc: Global, object: &Str, attribute: &Str) -> Result<StatedKinds, NoMemory>
        ensures { IfOk result (λ t. t ≡ looked_up self.now object.now attribute.now) }
    {
        let Some(names) = self.collections.names(object) else {
            return Ok(StatedKinds::Nothing);
        };
        let Some(givers) = self.givers.names(attribute) else {
            return Ok(StatedKinds::Nothing);
        };
        if givers.len() < names.len() {
            self.told_by_givers(alloc, names, givers, attribute)
        } else {
            self.told_by_names(alloc, names, attribute)
        }
    }

    /// Whether the part is a conflict of kinds, where `seen` has what the parts before it give.
    pub(crate) fn conflicts(
        &self,
        alloc: Global,
        seen: &Givings,
        part: &Part,
    ) -> Result<bool, NoMemory>
        ensures { IfOk result (λ found. found ≡ is_conflict seen.now self.now part.now) }
    {
        match part {
            Part::Gives(giving) => {
                let told = seen.told(alloc, &giving.collection, &giving.attribute)?;
                Ok(told.and(StatedKinds::One(giving.kind.kind)).is_several())
            }
            Part::Edge(object, attribute, given) => match &given.content {
                Content::Plain(_) => Ok(self.told(alloc, object, attribute)?.is_several()),
                Content::Number(_) | Content::Kinded(_, _) | Content::Node(_) => Ok(false),
            },
            Part::Node(_) | Part::Member(_, _) => Ok(false),
        }
    }
}

// The kinds that these parts give.
fn givings_of(alloc: Global, parts: &[Part]) -> Result<Givings, NoMemory>
    ensures { IfOk result (HasGivings parts.now) }
{
    let mut givings = Givings::new(alloc);
    for part in parts {
        givings.add_part(alloc, part)?;
    }
    Ok(givings)
}

// The collections whose directives give attributes kinds.
fn givers_of(alloc: Global, parts: &[Part]) -> Result<Collections, NoMemory>
    ensures { IfOk result (HasGivers parts.now) }
{
    let mut givers = Collections::new(alloc);
    for part in parts {
        givers.add_giver(alloc, part)?;
    }
    Ok(givers)
}

// The collections that these parts report.
fn collections_of(alloc: Global, parts: &[Part]) -> Result<Collections, NoMemory>
    ensures { IfOk result (HasCollections parts.now) }
{
    let mut collections = Collections::new(alloc);
    for part in parts {
        collections.add_part(alloc, part)?;
    }
    Ok(collections)
}
