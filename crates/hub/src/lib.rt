//! Many connections at once, over any wire and any pages whose data may change.
#![tactic(auto)]

mod connection;
mod hub_step;
mod serving;
mod table;

pub use hub_step::Hub;
pub use serving::serve;
pub use serving_spec::{HubEnd, Origin, Tally};
