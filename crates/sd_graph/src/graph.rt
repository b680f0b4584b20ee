// A data graph that is built.
ghost use Rattle.std.specs.Prelude.{◌≡◌};
ghost use Rattle.graph_spec.specs.DataGraph.{IsWellFormed};
ghost use Rattle.sd_graph.specs.ProgramLimits.{IsWithinProgram};

use graph_spec::{Edge, Member};
use sd_value::Str;
use std::marker::Model;

/// A data graph, within the limits of the program.
#[derive(Debug)]
pub struct Graph {
    nodes: Vec<Str>,
    edges: Vec<Edge>,
    members: Vec<Member>,
}

// Written out, so that it is proved here once, and not again in each crate that drops one.
impl Drop for Graph {
    fn drop(self) {
        let Graph {
            nodes: _nodes,
            edges: _edges,
            members: _members,
        } = self;
    }
}

impl Model for Graph {
    ghost use Rattle.graph_spec.specs.DataGraph.{DataGraph, IsWellFormed};
    ghost use Rattle.sd_graph.specs.ProgramLimits.{IsWithinProgram};

    ghost Value = { DataGraph };

    ghost view = { λ g. record {
      nodes = g.nodes.items;
      edges = g.edges.items;
      members = g.members.items;
    } };

    ghost invariant = { λ g. IsWellFormed (record {
      nodes = g.nodes.items;
      edges = g.edges.items;
      members = g.members.items;
    }) × IsWithinProgram (record {
      nodes = g.nodes.items;
      edges = g.edges.items;
      members = g.members.items;
    }) };
}

impl Graph {
    // The graph of these lists.
    pub(crate) fn of(nodes: Vec<Str>, edges: Vec<Edge>, members: Vec<Member>) -> Graph
        requires well_formed { IsWellFormed (record {
          nodes = nodes.items;
          edges = edges.items;
          members = members.items;
        }) }
        requires within { IsWithinProgram (record {
          nodes = nodes.items;
          edges = edges.items;
          members = members.items;
        }) }
        ensures { result ≡ record {
          nodes = nodes.items;
          edges = edges.items;
          members = members.items;
        } }
    {
        Graph {
            nodes,
            edges,
            members,
        }
    }

    /// The edges without repeats, by start, then label, then end.
    pub fn edges(&self) -> &[Edge]
        ensures value { result.now ≡ self.now.edges }
        ensures well_formed { IsWellFormed self.now }
    {
        self.edges.as_slice()
    }

    /// The names of the declared nodes, ascending.
    pub fn nodes(&self) -> &[Str]
        ensures value { result.now ≡ self.now.nodes }
        ensures well_formed { IsWellFormed self.now }
    {
        self.nodes.as_slice()
    }

    /// The members of collections, by collection and then node. This call also reports that the graph is within the limits
    /// of the program.
    pub fn member_pairs(&self) -> &[Member]
        ensures value { result.now ≡ self.now.members }
        ensures well_formed { IsWellFormed self.now }
        ensures within { IsWithinProgram self.now }
    {
        self.members.as_slice()
    }
}
