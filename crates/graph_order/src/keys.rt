// The keys of a graph's nodes by a word, from its last label to the first.
ghost use Rattle.std.specs.Prelude.{◌≡◌, ◌∷◌, [], IfOk, map, flat_map, Contains, length};
ghost use Rattle.sd_value.specs.declared.Value.TheVariants.{Data};
ghost use Rattle.graph_spec.specs.DataGraph.{IsEnd, node};
ghost use Rattle.order_spec.specs.Order.{reached};
ghost use Rattle.graph_order.specs.Known.{IsKnown};
ghost use Rattle.graph_order.specs.Keys.{IsLonger, key_by, least_key, EndWithin};

use edge_queries::Out;
use list_lookup::part;
use sd_graph::{Edge, Graph};
use sd_value::{Datum, NoMemory, Str, Value};
use sort_keys::{Key, lesser};
use std::alloc::Global;

/// What the keys of the graph's nodes are by a word. By the word without labels each value is its own key, and no list is
/// kept.
#[derive(Debug, Drop)]
pub(crate) struct Known<'a> {
    by_fold: bool,
    graph: &'a Graph,
    word: &'a [Str],
    keys: Vec<Option<Key>>,
}

// An equal key, if there is one.
fn copied(alloc: Global, key: &Option<Key>) -> Result<Option<Key>, NoMemory>
    ensures { IfOk result (λ k. k ≡ key.now) }
{
    match key {
        Some(key) => {
            let key = key.copy(alloc)?;
            Ok(Some(key))
        }
        None => Ok(None),
    }
}

impl<'a> Known<'a> {
    /// The keys by the word without labels.
    fn none(alloc: Global, by_fold: bool, graph: &'a Graph) -> Known<'a>
        ensures fold { result.by_fold ≡ by_fold }
        ensures graph { result.graph.now ≡ graph.now }
        ensures word { result.word.now ≡ [] }
        ensures known { IsKnown result }
    {
        Known {
            by_fold,
            graph,
            word: &[],
            keys: Vec::new(alloc),
        }
    }

    /// The graph of the nodes.
    pub(crate) fn graph(&self) -> &Graph
        ensures { result.now ≡ self.now.graph.now }
    {
        self.graph
    }

    // The key of a declared node, by a word with labels.
    fn of_node(&self, alloc: Global, name: &Str) -> Result<Option<Key>, NoMemory>
        requires known { IsKnown self.now }
        requires labels { self.now.word.now ≡ [] → ⊥ }
        requires declared { Contains self.now.graph.now.nodes name.now }
        ensures { IfOk result (λ k.
            k ≡ key_by self.now.by_fold self.now.graph.now self.now.word.now (node name.now)) }
    {
        match self.graph.nodes().binary_search(name) {
            Ok(number) => copied(alloc, &self.keys[number]),
            Err(_) => Ok(None),
        }
    }

    // The key of a datum, by a word with labels. Only a node may have one.
    fn of_datum(&self, alloc: Global, datum: &Datum) -> Result<Option<Key>, NoMemory>
        requires known { IsKnown self.now }
        requires labels { self.now.word.now ≡ [] → ⊥ }
        requires end { IsEnd self.now.graph.now (Data datum.now) }
        ensures { IfOk result (λ k.
            k ≡ key_by self.now.by_fold self.now.graph.now self.now.word.now (Data datum.now)) }
    {
        match datum {
            Datum::Node(name) => self.of_node(alloc, name),
            Datum::Int(_) => Ok(None),
            Datum::Text(_) => Ok(None),
            Datum::Url(_) => Ok(None),
            Datum::File(_) => Ok(None),
        }
    }

    /// The key of a value.
    pub(crate) fn of(&self, alloc: Global, value: &Value) -> Result<Option<Key>, NoMemory>
        requires known { IsKnown self.now }
        requires end { IsEnd self.now.graph.now value.now }
        ensures { IfOk result (λ k.
            k ≡ key_by self.now.by_fold self.now.graph.now self.now.word.now value.now) }
    {
        if self.word.is_empty() {
            let key = Key::of(alloc, self.by_fold, value)?;
            return Ok(Some(key));
        }
        match value {
            Value::Data(datum) => self.of_datum(alloc, datum),
            Value::Page(_) => Ok(None),
        }
    }

    // The least key of the edges' ends.
    fn least(&self, alloc: Global, edges: &[Edge]) -> Result<Option<Key>, NoMemory>
        requires known { IsKnown self.now }
        requires edges { EndWithin self.now.graph.now edges.now }
        ensures { IfOk result (λ k. k ≡ least_key self.now.by_fold
            (flat_map (reached self.now.graph.now self.now.word.now) (map (λ e. e.to) edges.now))) }
    {
        let mut least = None;
        for edge in edges {
            let key = self.of(alloc, &edge.to)?;
            least = lesser(least, key);
        }
        Ok(least)
    }

    // The key of a node by the word with a label before it.
    fn by_label(&self, alloc: Global, label: &Str, name: &Str) -> Result<Option<Key>, NoMemory>
        requires { IsKnown self.now }
        ensures { IfOk result (λ k. k ≡ key_by self.now.by_fold self.now.graph.now
            (label.now ∷ self.now.word.now) (node name.now)) }
    {
        let from = Value::Data(Datum::Node(name.copy(alloc)?));
        let edges = part(self.graph.edges(), &Out { from: &from, label });
        self.least(alloc, edges)
    }

    // The keys of the nodes by the word with a label before it.
    fn all_by(
        &self,
        alloc: Global,
        label: &Str,
        names: &[Str],
    ) -> Result<Vec<Option<Key>>, NoMemory>
        requires { IsKnown self.now }
        ensures { IfOk result (λ ks. ks.items ≡ map (λ n. key_by self.now.by_fold
            self.now.graph.now (label.now ∷ self.now.word.now) (node n)) names.now) }
    {
        let mut keys = Vec::with_capacity(alloc, names.len())?;
        for name in names {
            keys.push(self.by_label(alloc, label, name)?)?;
        }
        Ok(keys)
    }

    // The keys by a word of one label more.
    fn before(&self, alloc: Global, word: &'a [Str]) -> Result<Known<'a>, NoMemory>
        requires known { IsKnown self.now }
        requires longer { IsLonger word.now self.now.word.now }
        ensures fold { IfOk result (λ k. k.by_fold ≡ self.now.by_fold) }
        ensures graph { IfOk result (λ k. k.graph.now ≡ self.now.graph.now) }
        ensures word { IfOk result (λ k. k.word.now ≡ word.now) }
        ensures known { IfOk result IsKnown }
    {
        let keys = self.all_by(alloc, &word[0], self.graph.nodes())?;
        Ok(Known {
            by_fold: self.by_fold,
            graph: self.graph,
            word,
            keys,
        })
    }

    /// The keys by a word. Each label costs a look at all nodes and edges.
    pub(crate) fn by(
        alloc: Global,
        by_fold: bool,
        graph: &'a Graph,
        word: &'a [Str],
    ) -> Result<Known<'a>, NoMemory>
        ensures fold { IfOk result (λ k. k.by_fold ≡ by_fold) }
        ensures graph { IfOk result (λ k. k.graph.now ≡ graph.now) }
        ensures word { IfOk result (λ k. k.word.now ≡ word.now) }
        ensures known { IfOk result IsKnown }
    {
        let mut known = Known::none(alloc, by_fold, graph);
        for done in 0..word.len() {
            known = known.before(alloc, &word[word.len() - 1 - done..])?;
        }
        Ok(known)
    }
}
