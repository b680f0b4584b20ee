//! The data of a trial.

ghost use Rattle.std.specs.Prelude.{◌≡◌, ◌<◌, ◌≤◌, ◌+◌, ◌++◌, ◌∷◌, [], ℕ, IfOk, OnOk, decimal};
ghost use Rattle.graph_spec.specs.DataGraph.{text};
ghost use Rattle.graph_spec.specs.Statement.{with_all};
ghost use Rattle.sd_graph.specs.Statement.{a_member, an_edge, graph_with, IsData};
ghost use Rattle.trial_spec.specs.Data as specs;
ghost use Rattle.trial_site.specs.Data.{as_value, AreWords};
ghost use Rattle.trial_site.specs.Room.{HasRoom};

use sd_graph::{Graph, GraphBuilder, GraphRefusal, PROGRAM_LIMITS};
use sd_value::{Datum, NoMemory, Str, Value};
use std::alloc::Global;
use token_writer::put_number;
use trial_spec::Entry;

// What the generator's state is multiplied by, what is then added, and what is then divided by for the rest.
const MULTIPLIER: u64 = 1_103_515_245;

const INCREMENT: u64 = 12_345;

const MODULUS: u64 = 2_147_483_648;

// The first year, how many years there are, and how many authors.
const FIRST_YEAR: u64 = 1_980;

const YEARS: u64 = 30;

const AUTHORS: u64 = 50;

/// A linear congruential generator.
#[derive(Drop)]
struct Generator {
    state: u64,
}

impl Generator {
    fn draw(&mut self) -> u64
        requires { self.old.state < 2147483648 }
        ensures state { self.new.state ≡ specs.next self.old.state }
        ensures below { self.new.state < 2147483648 }
        ensures drawn { result ≡ specs.drawn self.new.state }
    {
        self.state = (MULTIPLIER * self.state + INCREMENT) % MODULUS;
        self.state / 65_536
    }

    /// The entry of this number.
    fn entry(&mut self, number: u64) -> Entry
        requires { self.old.state < 2147483648 }
        ensures state { self.new.state ≡ specs.next (specs.next (specs.next self.old.state)) }
        ensures below { self.new.state < 2147483648 }
        ensures entry { result ≡ specs.entry_after self.old.state number }
    {
        let year = FIRST_YEAR + self.draw() % YEARS;
        let first = self.draw() % AUTHORS;
        let second = self.draw() % AUTHORS;
        Entry {
            number,
            year,
            first,
            second,
        }
    }
}

/// A word with a number behind it.
pub fn numbered(alloc: Global, word: &[u8], number: u64) -> Result<Str, NoMemory>
    ensures { IfOk result (λ text. text ≡ specs.numbered word.now number) }
{
    let mut text = Vec::from_slice(alloc, word)?;
    put_number(number as u128, &mut text)?;
    Str::of(alloc, text)
}

/// The node of the entry of this number.
pub fn node_name(alloc: Global, number: u64) -> Result<Str, NoMemory>
    ensures { IfOk result (λ name. name ≡ specs.node_name number) }
{
    numbered(alloc, b"pub_", number)
}

// The words that every entry has.
#[derive(Drop)]
struct Words {
    publications: Str,
    title: Str,
    year: Str,
    author: Str,
}

impl Words {
    fn new(alloc: Global) -> Result<Words, NoMemory>
        ensures { IfOk result AreWords }
    {
        Ok(Words {
            publications: Str::new(alloc, b"Publications")?,
            title: Str::new(alloc, b"title")?,
            year: Str::new(alloc, b"year")?,
            author: Str::new(alloc, b"author")?,
        })
    }
}

// The graph has room for what is added, so out of memory is the only refusal.
fn add_member(
    alloc: Global,
    graph: &mut GraphBuilder,
    collection: &Str,
    node: &Str,
) -> Result<(), NoMemory>
    requires { HasRoom 1 graph.old }
    ensures stated { OnOk result (graph.new.graph
        ≡ graph_with (a_member collection.now node.now) graph.old.graph) }
    ensures room { OnOk result ((more : ℕ) → HasRoom (more + 1) graph.old
        → HasRoom more graph.new) }
{
    match graph.add_member(alloc, collection, node) {
        Ok(()) => Ok(()),
        Err(GraphRefusal::NoMemory) => Err(NoMemory),
        Err(GraphRefusal::TooManyNodes) => unreachable!(),
        Err(GraphRefusal::TooManyEdges) => unreachable!(),
    }
}

fn add_edge(
    alloc: Global,
    graph: &mut GraphBuilder,
    node: &Str,
    label: &Str,
    value: Datum,
) -> Result<(), NoMemory>
    requires { HasRoom 1 graph.old }
    ensures stated { OnOk result
        (graph.new.graph
        ≡ graph_with (an_edge node.now label.now (as_value value)) graph.old.graph) }
    ensures room { OnOk result ((more : ℕ) → HasRoom (more + 1) graph.old
        → HasRoom more graph.new) }
{
    match graph.add_edge(alloc, node, label, &Value::Data(value)) {
        Ok(()) => Ok(()),
        Err(GraphRefusal::NoMemory) => Err(NoMemory),
        Err(GraphRefusal::TooManyNodes) => unreachable!(),
        Err(GraphRefusal::TooManyEdges) => unreachable!(),
    }
}

// An edge to a word with a number behind it.
fn add_text(
    alloc: Global,
    graph: &mut GraphBuilder,
    node: &Str,
    label: &Str,
    word: &[u8],
    number: u64,
) -> Result<(), NoMemory>
    requires { HasRoom 1 graph.old }
    ensures stated { OnOk result (graph.new.graph
        ≡ graph_with (an_edge node.now label.now (text (specs.numbered word.now number)))
        graph.old.graph) }
    ensures room { OnOk result ((more : ℕ) → HasRoom (more + 1) graph.old
        → HasRoom more graph.new) }
{
    let text = numbered(alloc, word, number)?;
    add_edge(alloc, graph, node, label, Datum::Text(text))
}

fn add_entry(
    alloc: Global,
    graph: &mut GraphBuilder,
    words: &Words,
    entry: Entry,
) -> Result<(), NoMemory>
    requires words { AreWords words.now }
    requires year { entry.year < 4294967296 }
    requires room { HasRoom 5 graph.old }
    ensures stated { OnOk result (graph.new.graph
        ≡ with_all graph.old.graph (specs.statements entry)) }
    ensures room { OnOk result ((more : ℕ) → HasRoom (more + 5) graph.old
        → HasRoom more graph.new) }
{
    let node = node_name(alloc, entry.number)?;
    add_member(alloc, graph, &words.publications, &node)?;
    add_text(alloc, graph, &node, &words.title, b"Title ", entry.number)?;
    add_edge(
        alloc,
        graph,
        &node,
        &words.year,
        Datum::Int(entry.year as i64),
    )?;
    add_text(alloc, graph, &node, &words.author, b"Author ", entry.first)?;
    add_text(alloc, graph, &node, &words.author, b"Author ", entry.second)?;
    Ok(())
}

/// The data of a trial of this many entries. The program's limits have room for them, so out of memory is the only
/// error.
pub fn made_graph(alloc: Global, entries: u32) -> Result<Graph, NoMemory>
    requires { entries ≤ 20000 }
    ensures { IfOk result (λ graph. graph ≡ specs.made_graph entries) }
{
    let words = Words::new(alloc)?;
    let mut graph = GraphBuilder::new(alloc, PROGRAM_LIMITS);
    let mut generator = Generator {
        state: u64::from(entries),
    };
    for made in 0..u64::from(entries) {
        let entry = generator.entry(made + 1);
        add_entry(alloc, &mut graph, &words, entry)?;
    }
    graph.finish(alloc)
}
