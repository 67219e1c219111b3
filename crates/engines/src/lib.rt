//! The two engines of the bridge, one part under way at a time: what each state drives, and what each move leads to.

#![tactic(auto)]

pub mod reader;
pub mod taken;
pub mod task;
pub mod writer;
