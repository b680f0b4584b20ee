// Copies of edges and members.
use crate::{Edge, Member};
use sd_value::{Copied, NoMemory, copy};
use std::alloc::Global;

impl Copied for Edge {
    fn copied(&self, alloc: Global) -> Result<Edge, NoMemory> {
        Ok(Edge {
            from: self.from.copy(alloc)?,
            label: self.label.copy(alloc)?,
            to: copy(alloc, &self.to)?,
        })
    }
}

impl Copied for Member {
    fn copied(&self, alloc: Global) -> Result<Member, NoMemory> {
        Ok(Member {
            collection: self.collection.copy(alloc)?,
            node: self.node.copy(alloc)?,
        })
    }
}
