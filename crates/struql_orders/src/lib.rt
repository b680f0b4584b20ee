//! The ORDERs of a query, and their readers.
#![tactic(auto)]

mod labels;
mod places;
mod reading;

use order_spec::Order;
pub use reading::orders_at;
use struql_ast::Query;

/// A query with its ORDERs, which make the graph that the rest of it is asked over.
#[derive(Drop)]
pub struct OrderedQuery {
    /// In the order in which they come.
    pub orders: Vec<Order>,
    /// The rest.
    pub query: Query,
}
