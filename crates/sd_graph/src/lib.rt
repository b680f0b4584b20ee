//! Builds a data graph within limits.
#![tactic(auto)]

ghost use Rattle.sd_graph.specs.Statement.{Refuses};

mod builder;
mod gathered;
mod graph;
mod names;
mod room;

pub use builder::{GraphBuilder, known_statements_change_nothing};
pub use graph::Graph;
pub use graph_spec::{Edge, Member, Step};
use sd_value::NoMemory;
pub use store::{Sizes, Store};

/// How many nodes a graph may have, and how many edges and members together.
#[derive(Clone, Copy, Debug, PartialEq, Eq)]
pub struct Limits {
    pub nodes: u64,
    pub edges: u64,
}

/// The most nodes of a graph in the program.
pub const MAX_NODES: u64 = 1_048_576;

/// The most edges and members together of a graph in the program.
pub const MAX_EDGES: u64 = 4_194_304;

/// The program's limits.
pub const PROGRAM_LIMITS: Limits = Limits {
    nodes: MAX_NODES,
    edges: MAX_EDGES,
};

/// Why something was not added to a graph. Where both kinds are too many, it is `TooManyNodes`.
#[derive(Clone, Copy, Debug, PartialEq, Eq)]
pub enum GraphRefusal {
    TooManyEdges,
    TooManyNodes,
    NoMemory,
}

impl From<NoMemory> for GraphRefusal {
    ghost use Rattle.std.specs.Prelude.{◌≡◌};
    ghost use Rattle.sd_graph.specs.declared.GraphRefusal.TheVariants.{NoMemory as OutOfMemory};

    ghost from_gives = { λ _ e. e ≡ OutOfMemory };

    fn from(_error: NoMemory) -> GraphRefusal {
        GraphRefusal::NoMemory
    }
}

// Why a graph of this many nodes, and this many edges and members together, is refused.
fn over(limits: Limits, nodes: u64, edges: u64) -> Option<GraphRefusal>
    ensures { Refuses limits nodes edges result }
{
    if nodes > limits.nodes {
        return Some(GraphRefusal::TooManyNodes);
    }
    if edges > limits.edges {
        return Some(GraphRefusal::TooManyEdges);
    }
    None
}
