//! The lines of a transcript: what crossed on each edge, and how the playing ended.

#![tactic(auto)]

pub mod crossing;
pub mod ending;
pub mod fault;
mod print;
