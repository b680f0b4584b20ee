//! Tests of the system's own files and sockets.
#![tactic(auto)]

#[cfg(test)]
mod burst;
#[cfg(test)]
mod files;
#[cfg(test)]
mod flaky;
#[cfg(test)]
mod folder;
#[cfg(test)]
mod full;
#[cfg(test)]
mod logged;
#[cfg(test)]
mod sockets;
#[cfg(test)]
mod talk;
