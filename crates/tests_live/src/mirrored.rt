// A graph as a plain list without order, on which edits are made by hand, and an index of it from scratch.
use edit_spec::Edit;
use graph_spec::{Edge, Member};
use index_store::IndexStore;
use sd_graph::{GraphBuilder, PROGRAM_LIMITS};
use sd_value::{Datum, NoMemory, Str, Value};
use std::alloc::Global;
use std::test::Fail;

#[derive(Drop)]
enum Stated {
    Node(Str),
    Edge(Edge),
    Member(Member),
}

#[derive(Drop)]
pub(crate) struct Mirror {
    stated: Vec<Stated>,
}

impl Mirror {
    pub(crate) fn new(alloc: Global) -> Mirror {
        Mirror {
            stated: Vec::new(alloc),
        }
    }

    pub(crate) fn edit(&mut self, alloc: Global, edit: Edit) -> Result<(), NoMemory> {
        match edit {
            Edit::Add(edge) => {
                self.stated.push(Stated::Node(edge.from.copy(alloc)?))?;
                if let Value::Data(Datum::Node(name)) = &edge.to {
                    self.stated.push(Stated::Node(name.copy(alloc)?))?;
                }
                self.stated.push(Stated::Edge(edge))?;
            }
            Edit::Remove(edge) => self.stated.retain(|stated| match stated {
                Stated::Edge(other) => *other != edge,
                _ => true,
            }),
            Edit::Enter(member) => {
                self.stated.push(Stated::Node(member.node.copy(alloc)?))?;
                self.stated.push(Stated::Member(member))?;
            }
            Edit::Leave(member) => self.stated.retain(|stated| match stated {
                Stated::Member(other) => *other != member,
                _ => true,
            }),
        }
        Ok(())
    }

    pub(crate) fn builder(&self, alloc: Global) -> Result<GraphBuilder, Fail> {
        let mut builder = GraphBuilder::new(alloc, PROGRAM_LIMITS);
        for stated in &self.stated {
            match stated {
                Stated::Node(name) => builder.add_node(alloc, name)?,
                Stated::Edge(edge) => match &edge.to {
                    Value::Data(_) => {
                        builder.add_edge(alloc, &edge.from, &edge.label, &edge.to)?
                    }
                    Value::Page(_) => return Err(Fail::new("a page")),
                },
                Stated::Member(member) => {
                    builder.add_member(alloc, &member.collection, &member.node)?
                }
            }
        }
        Ok(builder)
    }

    pub(crate) fn index(&self, alloc: Global) -> Result<IndexStore, Fail> {
        let graph = self.builder(alloc)?.finish(alloc)?;
        Ok(IndexStore::of(alloc, graph)?)
    }
}
