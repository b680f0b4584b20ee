//! What a site asks of its data, with a count of what is handed out: the trait `Asker`.
#![tactic(auto)]

ghost use Rattle.std.specs.Prelude.{◌≡◌, ◌↔◌, ℕ, List, length, IfOk, IsTrue, MatchResult};
ghost use Rattle.sd_value.specs.Ascending.{ListsExactly};
ghost use Rattle.sd_value.specs.Order.{value_cmp};
ghost use Rattle.graph_spec.specs.DataGraph.{DataGraph, IsWellFormed, HasEdge};
ghost use Rattle.query_spec.specs.Mentions.{IsWellMade};
ghost use Rattle.query_spec.specs.Rows.{row_cmp, IsAnswer, SomeAnswer};
ghost use Rattle.asker.specs.Counted.{IsCounted};
ghost use Rattle.asker.specs.Wanted.{ListsSome};

use query_spec::{Bound, Row};
use sd_value::{NoMemory, Str, Value};
use std::alloc::Global;
use struql_ast::Chain;

/// What answers questions on a data graph, and counts what it hands out. The count never falls, and stays at its last
/// value once it is there. A call that is out of memory hands out nothing and leaves the count.
pub trait Asker {
    ghost graph: { Self → DataGraph };

    ghost count: { Self → ℕ };

    /// The rows of the chain that have the values that are bound, strictly ascending. Each row is counted.
    fn ask(&mut self, alloc: Global, chain: &Chain, bound: &Bound) -> Result<Vec<Row>, NoMemory>
        requires well_made { IsWellMade chain.now }
        requires one_each { length bound.now ≡ length chain.now.variables }
        ensures graph { graph self.new ≡ graph self.old }
        ensures rows { IfOk result
            (λ rows. ListsExactly row_cmp
            (IsAnswer (graph self.old) chain.now bound.now) rows.items) }
        ensures counted { MatchResult result
            (λ rows. IsCounted (count self.old) (length rows.items) (count self.new))
            (λ _. count self.new ≡ count self.old) };

    /// Some of the rows that `ask` lists: for each of them at least one that has the same values of the variables that are
    /// wanted, those whose flag is set. Each row is counted.
    fn ask_some(
        &mut self,
        alloc: Global,
        chain: &Chain,
        bound: &Bound,
        wanted: &[bool],
    ) -> Result<Vec<Row>, NoMemory>
        requires well_made { IsWellMade chain.now }
        requires one_each { length bound.now ≡ length chain.now.variables }
        requires one_flag_each { length wanted.now ≡ length chain.now.variables }
        ensures graph { graph self.new ≡ graph self.old }
        ensures rows { IfOk result
            (λ rows. ListsSome wanted.now (IsAnswer (graph self.old) chain.now bound.now)
            rows.items) }
        ensures counted { MatchResult result
            (λ rows. IsCounted (count self.old) (length rows.items) (count self.new))
            (λ _. count self.new ≡ count self.old) };

    /// Whether the chain has such a row. The answer counts as one.
    fn exists(&mut self, alloc: Global, chain: &Chain, bound: &Bound) -> Result<bool, NoMemory>
        requires well_made { IsWellMade chain.now }
        requires one_each { length bound.now ≡ length chain.now.variables }
        ensures graph { graph self.new ≡ graph self.old }
        ensures answer { IfOk result
            (λ b. IsTrue b ↔ SomeAnswer (graph self.old) chain.now bound.now) }
        ensures counted { MatchResult result (λ _. IsCounted (count self.old) 1 (count self.new))
            (λ _. count self.new ≡ count self.old) };

    /// The ends of the data edges from the value by the label, strictly ascending. Each end is counted.
    fn out(&mut self, alloc: Global, node: &Value, label: &Str) -> Result<Vec<Value>, NoMemory>
        ensures graph { graph self.new ≡ graph self.old }
        ensures ends { IfOk result
            (λ ends. ListsExactly value_cmp
            (HasEdge (graph self.old) node.now label.now) ends.items) }
        ensures counted { MatchResult result
            (λ ends. IsCounted (count self.old) (length ends.items) (count self.new))
            (λ _. count self.new ≡ count self.old) };

    /// How much was handed out. The graph is well formed, which this call reports too.
    fn given(&self) -> u128
        ensures count { result ≡ count self.now }
        ensures well_formed { IsWellFormed (graph self.now) };
}
