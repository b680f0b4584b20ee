// Building a graph, within limits.
ghost use Rattle.std.specs.Prelude.{◌≡◌, ◌⊎◌, ◌↔◌, IfOk, IsTrue, Ok, Err, ⊤, if◌then◌else◌, Result};
ghost use Rattle.std.specs.Result.{is_ok};
ghost use Rattle.sd_graph.specs.declared.GraphRefusal.{GraphRefusal as Refusal};
ghost use Rattle.sd_graph.specs.declared.GraphRefusal.TheVariants.{NoMemory as OutOfMemory};
ghost use Rattle.sd_graph.specs.Statement.{Statement, Building, a_node, a_member, an_edge, Adds, IsData, IsStatedIn};
ghost use Rattle.sd_graph.specs.Statement.{with_name, with_end, IsEmpty, IsBuilt};
ghost use Rattle.sd_graph.specs.ProgramLimits.{AreWithinProgram};
ghost use Rattle.sd_graph.specs.Undone.{without, without_end};

use crate::gathered::Gathered;
use crate::graph::Graph;
use crate::names::Names;
use crate::room::put;
use crate::{GraphRefusal, Limits};
use graph_spec::{Edge, Member};
use sd_value::{Datum, NoMemory, Str, Value, copy};
use std::alloc::Global;
use std::marker::Model;

/// A graph that is being built. It is well formed and within its limits after each call.
#[derive(Debug, Drop)]
pub struct GraphBuilder {
    limits: Limits,
    nodes: Names,
    edges: Gathered<Edge>,
    members: Gathered<Member>,
}

impl Model for GraphBuilder {
    ghost use Rattle.graph_spec.specs.Orders.{edge_cmp, member_cmp};
    ghost use Rattle.sd_graph.specs.Gathered.{elements};
    ghost use Rattle.sd_graph.specs.ProgramLimits.{AreWithinProgram};
    ghost use Rattle.sd_graph.specs.Statement.{Building, IsBuilt};

    ghost Value = { Building };

    ghost view = { λ b. record {
      limits = b.limits;
      graph = record {
        nodes = b.nodes;
        edges = elements edge_cmp b.edges;
        members = elements member_cmp b.members;
      };
    } };

    ghost invariant = { λ b. IsBuilt (record {
      limits = b.limits;
      graph = record {
        nodes = b.nodes;
        edges = elements edge_cmp b.edges;
        members = elements member_cmp b.members;
      };
    }) × AreWithinProgram b.limits };
}

// Which of an edge's ends were declared with it.
#[derive(Clone, Copy, Debug)]
struct Declared {
    start: bool,
    end: bool,
}

// Adds the names of an edge's ends. On `Err` nothing has changed.
fn declare_ends(
    alloc: Global,
    names: &mut Names,
    from: &Str,
    to: &Value,
) -> Result<Declared, NoMemory>
    ensures names { names.new
        ≡ (if is_ok result then with_end to.now (with_name from.now names.old) else names.old) }
    ensures added { IfOk result
        (λ added. without from.now added.start (without_end to.now added.end names.new)
        ≡ names.old) }
{
    let start = names.begin(alloc, from)?;
    let end = match to {
        Value::Data(Datum::Node(name)) => names.add(alloc, name),
        _ => Ok(false),
    };
    match end {
        Ok(end) => Ok(Declared { start, end }),
        Err(error) => {
            names.forget(from, start);
            Err(error)
        }
    }
}

// Takes an edge's ends out again, as far as they were added.
fn forget_ends(names: &mut Names, from: &Str, to: &Value, added: Declared)
    ensures { names.new ≡ without from.now added.start (without_end to.now added.end names.old) }
{
    if let Value::Data(Datum::Node(name)) = to {
        names.forget(name, added.end);
    }
    names.forget(from, added.start);
}

fn edge_of(alloc: Global, from: &Str, label: &Str, to: &Value) -> Result<Edge, NoMemory>
    ensures { IfOk result (λ edge. edge ≡ record {
      from = from.now;
      label = label.now;
      to = to.now;
    }) }
{
    Ok(Edge {
        from: from.copy(alloc)?,
        label: label.copy(alloc)?,
        to: copy(alloc, to)?,
    })
}

fn member_of(alloc: Global, collection: &Str, node: &Str) -> Result<Member, NoMemory>
    ensures { IfOk result (λ member. member ≡ record {
      collection = collection.now;
      node = node.now;
    }) }
{
    Ok(Member {
        collection: collection.copy(alloc)?,
        node: node.copy(alloc)?,
    })
}

impl GraphBuilder {
    /// The empty graph, which may grow up to the limits. They are no greater than those of the program.
    pub fn new(alloc: Global, limits: Limits) -> GraphBuilder
        requires { AreWithinProgram limits }
        ensures limits { result.limits ≡ limits }
        ensures empty { IsEmpty result.graph }
    {
        GraphBuilder {
            limits,
            nodes: Names::new(alloc),
            edges: Gathered::new(alloc),
            members: Gathered::new(alloc),
        }
    }

    /// How large the graph may become. This call also reports that the graph is well formed and within the limits, and
    /// that these are no greater than those of the program.
    pub fn limits(&self) -> Limits
        ensures value { result ≡ self.now.limits }
        ensures built { IsBuilt self.now }
        ensures program { AreWithinProgram result }
    {
        self.limits
    }

    /// Whether nothing is stated yet.
    pub fn is_empty(&self) -> bool
        ensures { IsTrue result ↔ IsEmpty self.now.graph }
    {
        self.nodes.len() == 0
    }

    /// Declares a node.
    ///
    /// `TooManyNodes` comes exactly where the graph would have more nodes than the limit. A refusal changes nothing.
    pub fn add_node(&mut self, alloc: Global, name: &Str) -> Result<(), GraphRefusal>
        ensures { Adds (a_node name.now) self.old self.new result }
    {
        let added = self.nodes.begin(alloc, name)?;
        if self.nodes.len() as u64 > self.limits.nodes {
            self.nodes.forget(name, added);
            return Err(GraphRefusal::TooManyNodes);
        }
        Ok(())
    }

    /// Adds an edge, and declares its start, and its end where that is a node.
    ///
    /// `TooManyNodes` comes exactly where the graph would have more nodes than the limit, and `TooManyEdges` exactly
    /// where it would not, and would have more edges and members together than their limit. A refusal changes
    /// nothing.
    pub fn add_edge(
        &mut self,
        alloc: Global,
        from: &Str,
        label: &Str,
        to: &Value,
    ) -> Result<(), GraphRefusal>
        requires { IsData to.now }
        ensures { Adds (an_edge from.now label.now to.now) self.old self.new result }
    {
        let edge = edge_of(alloc, from, label, to)?;
        let added = declare_ends(alloc, &mut self.nodes, from, to)?;
        let result = put(
            alloc,
            self.limits,
            self.nodes.len(),
            &mut self.edges,
            &mut self.members,
            edge,
        );
        if result.is_err() {
            forget_ends(&mut self.nodes, from, to, added);
        }
        result
    }

    /// Puts a node into a collection, and declares the node.
    ///
    /// The refusals are those of `add_edge`.
    pub fn add_member(
        &mut self,
        alloc: Global,
        collection: &Str,
        node: &Str,
    ) -> Result<(), GraphRefusal>
        ensures { Adds (a_member collection.now node.now) self.old self.new result }
    {
        let member = member_of(alloc, collection, node)?;
        let added = self.nodes.begin(alloc, node)?;
        let result = put(
            alloc,
            self.limits,
            self.nodes.len(),
            &mut self.members,
            &mut self.edges,
            member,
        );
        if result.is_err() {
            self.nodes.forget(node, added);
        }
        result
    }

    /// An equal builder. Its texts share their bytes with this one's.
    pub fn copy(&self, alloc: Global) -> Result<GraphBuilder, NoMemory>
        ensures { IfOk result (λ b. b ≡ self.now) }
    {
        let nodes = self.nodes.copy(alloc)?;
        let edges = self.edges.copy(alloc)?;
        let members = self.members.copy(alloc)?;
        Ok(GraphBuilder {
            limits: self.limits,
            nodes,
            edges,
            members,
        })
    }

    /// The graph that was built.
    pub fn finish(self, alloc: Global) -> Result<Graph, NoMemory>
        ensures { IfOk result (λ graph. graph ≡ self.graph) }
    {
        let GraphBuilder {
            limits: _,
            nodes,
            edges,
            members,
        } = self;
        let nodes = nodes.into_list(alloc)?;
        let edges = edges.into_list(alloc)?;
        let members = members.into_list(alloc)?;
        Ok(Graph::of(nodes, edges, members))
    }
}

/// What a graph says already is accepted, unless it is out of memory, and changes nothing.
pub fn known_statements_change_nothing()
    ensures { (s : Statement) (b c : Building) (r : Result ⊤ Refusal) → IsBuilt b
        → IsStatedIn b.graph s
        → Adds s b c r → (c ≡ b) × ((r ≡ Ok tt) ⊎ (r ≡ Err OutOfMemory)) }
{}
