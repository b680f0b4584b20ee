// What a text file says of its node.
ghost use Rattle.std.specs.Prelude.{◌≡◌, ◌∷◌, [], ◌++◌, OnOk, map, codes};
ghost use Rattle.sd_graph.specs.Stating.{Ends};
ghost use Rattle.sd_graph.specs.StatingLaws.{ending_at};
ghost use Rattle.text_source.specs.Text.{text_ending, step_of, node_facts, folder_facts};
ghost use Rattle.text_source.specs.Cuts.{plain};
ghost use Rattle.text_source.specs.declared.facts.Fact.TheVariants.{Edge};
ghost use Rattle.sd_value.specs.declared.Datum.TheVariants.{Text};

use crate::lines::plain_text;
use crate::refusal::TextFileRefusal;
use sd_graph::{GraphBuilder, GraphRefusal};
use sd_value::{Datum, NoMemory, Str, Value};
use std::alloc::Global;

/// A fact of a text file's node.
#[derive(Debug)]
pub(crate) enum Fact {
    /// It is there.
    Node,
    /// It is a member of this collection.
    Member(Str),
    /// It has an edge, stated at this place, by this label to this value.
    Edge(u64, Str, Datum),
}

// Written out, so that it is proved here once.
impl Drop for Fact {
    fn drop(self) {
        match self {
            Fact::Node => {}
            Fact::Member(_) => {}
            Fact::Edge(_, _, _) => {}
        }
    }
}

// The answer to an addition at a place.
fn at_place(answer: Result<(), GraphRefusal>, at: u64) -> Result<(), TextFileRefusal>
    ensures { text_ending result ≡ ending_at at answer }
{
    match answer {
        Ok(()) => Ok(()),
        Err(GraphRefusal::TooManyNodes) => Err(TextFileRefusal::TooManyNodes(at)),
        Err(GraphRefusal::TooManyEdges) => Err(TextFileRefusal::TooManyEdges(at)),
        Err(GraphRefusal::NoMemory) => Err(TextFileRefusal::NoMemory),
    }
}

#[tactic(auto, using(crate::proofs::Steps::stated))]
fn state(
    alloc: Global,
    graph: &mut GraphBuilder,
    stem: &Str,
    fact: &Fact,
) -> Result<(), TextFileRefusal>
    ensures { Ends graph.old (step_of stem.now fact.now ∷ []) graph.new (text_ending result) }
{
    match fact {
        Fact::Node => at_place(graph.add_node(alloc, stem), 0),
        Fact::Member(collection) => at_place(graph.add_member(alloc, collection, stem), 0),
        Fact::Edge(at, label, datum) => {
            let value = Value::Data(datum.copy(alloc)?);
            at_place(graph.add_edge(alloc, stem, label, &value), *at)
        }
    }
}

/// States facts, one after another.
pub(crate) fn state_all(
    alloc: Global,
    graph: &mut GraphBuilder,
    stem: &Str,
    facts: &[Fact],
) -> Result<(), TextFileRefusal>
    ensures { Ends graph.old (map (step_of stem.now) facts.now) graph.new (text_ending result) }
{
    let mut rest = facts;
    'facts: while let Some((fact, later)) = rest.split_first() {
        state(alloc, graph, stem, fact)?;
        rest = later;
    }
    Ok(())
}

fn push_folder(alloc: Global, folder: &Option<Str>, facts: &mut Vec<Fact>) -> Result<(), NoMemory>
    ensures { OnOk result (facts.new.items ≡ facts.old.items ++ folder_facts folder.now) }
{
    if let Some(name) = folder {
        facts.push(Fact::Member(name.copy(alloc)?))?;
    }
    Ok(())
}

/// Adds what is so of every text file.
pub(crate) fn push_node(
    alloc: Global,
    stem: &Str,
    folder: &Option<Str>,
    facts: &mut Vec<Fact>,
) -> Result<(), NoMemory>
    ensures { OnOk result (facts.new.items ≡ facts.old.items ++ node_facts stem.now folder.now) }
{
    facts.push(Fact::Node)?;
    facts.push(Fact::Member(Str::new(alloc, b"texts")?))?;
    push_folder(alloc, folder, facts)?;
    let name = Datum::Text(stem.copy(alloc)?);
    facts.push(Fact::Edge(0, Str::new(alloc, b"name")?, name))?;
    Ok(())
}

/// Adds that these bytes are the file's text, with CR LF as LF.
pub(crate) fn push_text(alloc: Global, own: &[u8], facts: &mut Vec<Fact>) -> Result<(), NoMemory>
    ensures { OnOk result (facts.new.items
        ≡ facts.old.items ++ Edge 0 (codes "text") (Text (plain own.now)) ∷ []) }
{
    let text = Datum::Text(plain_text(alloc, own)?);
    facts.push(Fact::Edge(0, Str::new(alloc, b"text")?, text))?;
    Ok(())
}
