//! The write side of a bridge: three queues and the write engine.

#![tactic(auto)]

pub mod side;
