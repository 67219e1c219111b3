//! Tests of the other crates through their public calls, and what a caller can prove by them. They stand here, since a crate with tests is
//! proved a second time for them.

#![tactic(auto)]

#[cfg(test)]
mod bursts;
#[cfg(test)]
mod cursors;
#[cfg(test)]
mod edges;
#[cfg(test)]
mod lists;
pub mod owners;
#[cfg(test)]
mod queues;
#[cfg(test)]
mod scripts;
#[cfg(test)]
mod transcripts;
