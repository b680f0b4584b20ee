//! The data graphs among which one is looked for whose site breaks a constraint: the candidates, in
//! their order.
#![tactic(auto)]
