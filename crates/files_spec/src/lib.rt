//! Which files a site is written to, and what is in them after each end of a build. Definitions, no
//! engine.
#![tactic(auto)]

mod stop;

pub use stop::Stop;
