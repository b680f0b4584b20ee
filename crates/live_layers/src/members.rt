// A set of members, in two orders.
ghost use Rattle.std.specs.Prelude.{◌≡◌, ◌↔◌, OnOk, OnErr, IsTrue, Contains, []};
ghost use Rattle.std.specs.BTreeMap.{is_at};
ghost use Rattle.std.specs.BTreeSet.{insert_key};
ghost use Rattle.std.specs.Set.{remove_key};
ghost use Rattle.std.specs.Option.{option_copied};
ghost use Rattle.sd_value.specs.Order.{bytes_cmp};
ghost use Rattle.sd_value.specs.Ascending.{ListsExactly};
ghost use Rattle.graph_spec.specs.declared.Member.{Member as AnyMember};
ghost use Rattle.graph_spec.specs.Orders.{member_cmp};
ghost use Rattle.live_layers.specs.Grouped.{elements, IsGrouped, IsNear};

use crate::groups::Groups;
use graph_spec::Member;
use sd_value::{Copied, NoMemory, Str};
use std::alloc::Global;
use std::collections::BTreeSet;
use std::marker::Model;

/// Members, as they are ordered, and by collection.
#[derive(Debug, Drop)]
pub(crate) struct Members {
    all: BTreeSet<Member>,
    by_collection: Groups<Str, Member>,
}

impl Model for Members {
    ghost use Rattle.std.specs.Prelude.{List};
    ghost use Rattle.sd_value.specs.Order.{bytes_cmp};
    ghost use Rattle.graph_spec.specs.declared.Member.{Member as SomeMember};
    ghost use Rattle.live_layers.specs.Grouped.{IsGrouped};

    ghost Value = { List SomeMember };

    ghost view = { λ s. s.all.keys };

    ghost invariant = { λ s. IsGrouped bytes_cmp (λ (m : SomeMember). m.collection) s.all.keys
        s.by_collection };
}

// Puts a member into each of the sets. On `Err` the groups may have it.
fn insert(
    alloc: Global,
    all: &mut BTreeSet<Member>,
    groups: &mut Groups<Str, Member>,
    member: &Member,
) -> Result<(), NoMemory>
    requires { IsGrouped bytes_cmp (λ (m : AnyMember). m.collection) all.old.keys groups.old }
    ensures put { OnOk result (all.new.keys ≡ insert_key member_cmp all.old.keys member.now) }
    ensures grouped { OnOk result
        (IsGrouped bytes_cmp (λ (m : AnyMember). m.collection) all.new.keys groups.new) }
    ensures kept { OnErr result (all.new.keys ≡ all.old.keys) }
    ensures some { OnErr result
        (IsNear bytes_cmp (λ (m : AnyMember). m.collection) member.now all.old.keys groups.new) }
{
    let copied = member.copied(alloc)?;
    groups.put(alloc, &member.collection, member)?;
    all.insert(copied)?;
    Ok(())
}

impl Members {
    /// No members.
    pub(crate) fn new(alloc: Global) -> Members
        ensures { result ≡ [] }
    {
        Members {
            all: BTreeSet::new(alloc),
            by_collection: Groups::new(alloc),
        }
    }

    /// Puts a member in. On `Err` nothing has changed.
    pub(crate) fn put(&mut self, alloc: Global, member: &Member) -> Result<(), NoMemory>
        ensures put { OnOk result (self.new ≡ insert_key member_cmp self.old member.now) }
        ensures kept { OnErr result (self.new ≡ self.old) }
    {
        // With its size a set says that it is in order.
        let _size = self.all.len();
        if self.all.contains(member) {
            return Ok(());
        }
        match insert(alloc, &mut self.all, &mut self.by_collection, member) {
            Ok(()) => Ok(()),
            Err(error) => {
                self.by_collection.take(&member.collection, member);
                Err(error)
            }
        }
    }

    /// Takes a member out.
    pub(crate) fn take(&mut self, member: &Member)
        ensures { self.new ≡ remove_key (is_at (member_cmp member.now)) self.old }
    {
        // With its size a set says that it is in order.
        let _size = self.all.len();
        self.all.remove(member);
        self.by_collection.take(&member.collection, member);
    }

    /// Whether a member is one of them.
    pub(crate) fn has(&self, member: &Member) -> bool
        ensures { IsTrue result ↔ Contains self.now member.now }
    {
        self.all.contains(member)
    }

    /// The members of a collection.
    pub(crate) fn collected(&self, collection: &Str) -> Option<&BTreeSet<Member>>
        ensures { ListsExactly member_cmp
            (λ (m : AnyMember). Contains self.now m × (m.collection ≡ collection.now))
            (elements (option_copied result)) }
    {
        self.by_collection.at(collection)
    }
}
