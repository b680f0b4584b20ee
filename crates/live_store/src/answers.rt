// What the store answers: what the index answers, without what went, and with what came.
use crate::lists::{first_of, is_left, left, shifted};
use crate::live::LiveStore;
use crate::touched::{touched_labels, touched_values};
use sd_graph::{Edge, Sizes, Step, Store};
use sd_value::{NoMemory, Str, Value};
use std::alloc::Global;

impl Store for LiveStore {
    ghost graph = { λ s. s.graph };

    fn out(&self, alloc: Global, from: &Value, label: &Str) -> Result<Vec<Value>, NoMemory> {
        let base = self.base.out(alloc, from, label)?;
        let gone = self.gone.out(alloc, from, label)?;
        let came = self.came.out(alloc, from, label)?;
        shifted(base, gone, came)
    }

    fn out_all(&self, alloc: Global, from: &Value) -> Result<Vec<Step>, NoMemory> {
        let base = self.base.out_all(alloc, from)?;
        let gone = self.gone.out_all(alloc, from)?;
        let came = self.came.out_all(alloc, from)?;
        shifted(base, gone, came)
    }

    fn incoming(&self, alloc: Global, to: &Value) -> Result<Vec<Step>, NoMemory> {
        let base = self.base.incoming(alloc, to)?;
        let gone = self.gone.incoming(alloc, to)?;
        let came = self.came.incoming(alloc, to)?;
        shifted(base, gone, came)
    }

    fn incoming_by(&self, alloc: Global, to: &Value, label: &Str) -> Result<Vec<Value>, NoMemory> {
        let base = self.base.incoming_by(alloc, to, label)?;
        let gone = self.gone.incoming_by(alloc, to, label)?;
        let came = self.came.incoming_by(alloc, to, label)?;
        shifted(base, gone, came)
    }

    fn edges_by(&self, alloc: Global, label: &Str) -> Result<Vec<Edge>, NoMemory> {
        let base = self.base.edges_by(alloc, label)?;
        let gone = self.gone.edges_by(alloc, label)?;
        let came = self.came.edges_by(alloc, label)?;
        shifted(base, gone, came)
    }

    fn members(&self, alloc: Global, collection: &Str) -> Result<Vec<Value>, NoMemory> {
        let base = self.base.members(alloc, collection)?;
        let gone = self.gone.members(alloc, collection)?;
        let came = self.came.members(alloc, collection)?;
        shifted(base, gone, came)
    }

    fn values(&self, alloc: Global) -> Result<Vec<Value>, NoMemory> {
        let base = self.base.values(alloc)?;
        let touched = touched_values(alloc, &self.came, &self.gone, &self.nodes)?;
        let now = self.values_among(alloc, touched.as_slice())?;
        shifted(base, touched, now)
    }

    fn labels(&self, alloc: Global) -> Result<Vec<Str>, NoMemory> {
        let base = self.base.labels(alloc)?;
        let touched = touched_labels(alloc, &self.came, &self.gone)?;
        let now = self.labels_among(alloc, touched.as_slice())?;
        shifted(base, touched, now)
    }

    fn has_edge(&self, from: &Value, label: &Str, to: &Value) -> bool {
        let base = self.base.has_edge(from, label, to);
        let gone = self.gone.has_edge(from, label, to);
        let came = self.came.has_edge(from, label, to);
        is_left(base, gone, came)
    }

    fn is_member(&self, collection: &Str, value: &Value) -> bool {
        let base = self.base.is_member(collection, value);
        let gone = self.gone.is_member(collection, value);
        let came = self.came.is_member(collection, value);
        is_left(base, gone, came)
    }

    fn is_value(&self, value: &Value) -> bool {
        self.is_node(value) || self.degree_incoming(value) > 0
    }

    fn is_label(&self, label: &Str) -> bool {
        self.edges_of(label) > 0
    }

    fn sizes(&self) -> Sizes {
        self.told.sizes
    }

    fn edges_of(&self, label: &Str) -> u64 {
        let base = self.base.edges_of(label);
        let gone = self.gone.edges_of(label);
        let came = self.came.edges_of(label);
        left(self.told.sizes.edges, base, gone, came)
    }

    fn members_of(&self, collection: &Str) -> u64 {
        let base = self.base.members_of(collection);
        let gone = self.gone.members_of(collection);
        let came = self.came.members_of(collection);
        left(self.told.members, base, gone, came)
    }

    fn count_out(&self, from: &Value, label: &Str) -> u64 {
        let base = self.base.count_out(from, label);
        let gone = self.gone.count_out(from, label);
        let came = self.came.count_out(from, label);
        left(self.told.sizes.edges, base, gone, came)
    }

    fn count_incoming(&self, to: &Value, label: &Str) -> u64 {
        let base = self.base.count_incoming(to, label);
        let gone = self.gone.count_incoming(to, label);
        let came = self.came.count_incoming(to, label);
        left(self.told.sizes.edges, base, gone, came)
    }

    fn degree_out(&self, from: &Value) -> u64 {
        let base = self.base.degree_out(from);
        let gone = self.gone.degree_out(from);
        let came = self.came.degree_out(from);
        left(self.told.sizes.edges, base, gone, came)
    }

    fn degree_incoming(&self, to: &Value) -> u64 {
        let base = self.base.degree_incoming(to);
        let gone = self.gone.degree_incoming(to);
        let came = self.came.degree_incoming(to);
        left(self.told.sizes.edges, base, gone, came)
    }

    fn first_out(
        &self,
        alloc: Global,
        from: &Value,
        label: &Str,
        most: usize,
    ) -> Result<Vec<Value>, NoMemory> {
        let ends = self.out(alloc, from, label)?;
        Ok(first_of(ends, most))
    }

    fn first_incoming(
        &self,
        alloc: Global,
        to: &Value,
        label: &Str,
        most: usize,
    ) -> Result<Vec<Value>, NoMemory> {
        let starts = self.incoming_by(alloc, to, label)?;
        Ok(first_of(starts, most))
    }

    fn first_edges(&self, alloc: Global, label: &Str, most: usize) -> Result<Vec<Edge>, NoMemory> {
        let edges = self.edges_by(alloc, label)?;
        Ok(first_of(edges, most))
    }

    fn first_members(
        &self,
        alloc: Global,
        collection: &Str,
        most: usize,
    ) -> Result<Vec<Value>, NoMemory> {
        let nodes = self.members(alloc, collection)?;
        Ok(first_of(nodes, most))
    }

    fn first_values(&self, alloc: Global, most: usize) -> Result<Vec<Value>, NoMemory> {
        let values = self.values(alloc)?;
        Ok(first_of(values, most))
    }
}
