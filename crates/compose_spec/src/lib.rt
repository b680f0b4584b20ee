//! A site as a data graph, over which a second query may be asked.
#![tactic(auto)]
