// The store, and edits of it.
ghost use Rattle.std.specs.Prelude.{◌≡◌, ◌↔◌, ◌+◌, IfOk, OnOk, IsTrue, length, Contains};
ghost use Rattle.graph_spec.specs.DataGraph.{DataGraph, IsWellFormed};
ghost use Rattle.sd_graph.specs.ProgramLimits.{program_limits};
ghost use Rattle.sd_graph.specs.Statement.{Fits};
ghost use Rattle.edit_spec.specs.Edited.{Edited, IsOfData};
ghost use Rattle.index_store.specs.Indexed.{IsNodeOf as IsOneOf};
ghost use Rattle.live_layers.specs.Items.{HasItem};
ghost use Rattle.live_store.specs.Live.{Applies, GraphIsTold};

use crate::changes::{change, item_is_in};
use crate::lists::{is_among, is_left};
use crate::nodes::{declare, forget, node_of};
use crate::told::Told;
use edit_spec::Edit;
use index_store::IndexStore;
use live_layers::Layer;
use sd_graph::{Graph, GraphRefusal, Limits, PROGRAM_LIMITS, Store};
use sd_value::{NoMemory, Str, Value};
use std::alloc::Global;
use std::collections::BTreeSet;
use std::marker::Model;

/// A graph that takes edits, within the program's limits: the index of the graph at some time, what came and what went since, the
/// nodes that were declared since, and how large the graph is.
#[derive(Debug)]
pub struct LiveStore {
    pub(crate) base: IndexStore,
    pub(crate) came: Layer,
    pub(crate) gone: Layer,
    pub(crate) nodes: BTreeSet<Str>,
    pub(crate) told: Told,
}

// Written out, so that it is proved here once, and not again in each crate that drops one.
impl Drop for LiveStore {
    fn drop(self) {
        let LiveStore {
            base: _base,
            came: _came,
            gone: _gone,
            nodes: _nodes,
            told: _,
        } = self;
    }
}

impl Model for LiveStore {
    ghost use Rattle.sd_graph.specs.ProgramLimits.{program_limits};
    ghost use Rattle.sd_graph.specs.Statement.{Building};
    ghost use Rattle.live_store.specs.Live.{changed, IsLive};

    ghost Value = { Building };

    ghost view = { λ s. record {
      limits = program_limits;
      graph = changed s.base s.came s.gone s.nodes.keys;
    } };

    ghost invariant = { λ s. IsLive (record {
      limits = program_limits;
      graph = changed s.base s.came s.gone s.nodes.keys;
    }) s.base s.came s.gone s.nodes.keys s.told };
}

// Whether there is room for a graph of this size.
fn check_room(limits: Limits, told: &Told) -> Result<(), GraphRefusal>
    ensures { (L : DataGraph) → GraphIsTold L told.now
        → Fits limits (length L.nodes) (length L.edges + length L.members) result }
{
    if told.sizes.nodes > limits.nodes {
        return Err(GraphRefusal::TooManyNodes);
    }
    // What passes 64 bits passes any limit.
    let Some(edges) = told.sizes.edges.checked_add(told.members) else {
        return Err(GraphRefusal::TooManyEdges);
    };
    if edges > limits.edges {
        return Err(GraphRefusal::TooManyEdges);
    }
    Ok(())
}

impl LiveStore {
    /// The store of the graph.
    pub fn of(alloc: Global, graph: Graph) -> Result<LiveStore, NoMemory>
        ensures { IfOk result
            (λ store. store ≡ record { limits = program_limits; graph = graph }) }
    {
        // With its edges a graph says that it is well formed, which the store's answers rest on, and with its members
        // that it is within the program's limits.
        let _edges = graph.edges();
        let members = graph.member_pairs().len() as u64;
        let base = IndexStore::of(alloc, graph)?;
        let sizes = base.sizes();
        Ok(LiveStore {
            base,
            came: Layer::new(alloc),
            gone: Layer::new(alloc),
            nodes: BTreeSet::new(alloc),
            told: Told { sizes, members },
        })
    }

    /// Whether the graph declares this node.
    pub(crate) fn has_node(&self, name: &Str) -> bool
        ensures is { IsTrue result ↔ Contains self.now.graph.nodes name.now }
        ensures well_formed { IsWellFormed self.now.graph }
    {
        let base = is_among(self.base.graph().nodes(), name);
        base || self.nodes.contains(name)
    }

    /// Whether the value is a node that the graph declares.
    pub(crate) fn is_node(&self, value: &Value) -> bool
        ensures is { IsTrue result ↔ IsOneOf self.now.graph.nodes value.now }
        ensures well_formed { IsWellFormed self.now.graph }
    {
        // With its size a store says that its graph is well formed.
        let _sizes = self.sizes();
        // The index finds a node by its hash, and searches its list of nodes for what it doesn't have.
        match node_of(value) {
            Some(name) => self.base.is_value(value) || self.nodes.contains(name),
            None => false,
        }
    }

    /// Whether the graph has what the edit is of.
    pub(crate) fn has_item(&self, edit: &Edit) -> bool
        ensures { IsTrue result ↔ HasItem self.now.graph edit.now }
    {
        let base = item_is_in(&self.base, edit);
        let gone = self.gone.has_item(edit);
        let came = self.came.has_item(edit);
        is_left(base, gone, came)
    }

    /// Makes an edit of the graph. Adding what is there and removing what isn't changes nothing.
    ///
    /// `TooManyNodes` comes exactly where the graph would have more nodes than the limit, and `TooManyEdges` exactly
    /// where it would not, and would have more edges and members together than their limit. The limits are those of the
    /// program. A refusal changes nothing.
    pub fn apply(&mut self, alloc: Global, edit: &Edit) -> Result<(), GraphRefusal>
        requires { IsOfData edit.now }
        ensures limits { self.old.limits ≡ program_limits }
        ensures applies { Applies edit.now self.old self.new result }
        ensures edited { OnOk result (Edited self.old.graph edit.now self.new.graph) }
    {
        let told = self.told_after(edit);
        check_room(PROGRAM_LIMITS, &told)?;
        let declared = declare(alloc, &self.base, &mut self.nodes, edit)?;
        match change(alloc, &self.base, &mut self.came, &mut self.gone, edit) {
            Ok(()) => {
                self.told = told;
                Ok(())
            }
            Err(NoMemory) => {
                forget(&mut self.nodes, edit, declared);
                Err(GraphRefusal::NoMemory)
            }
        }
    }
}
