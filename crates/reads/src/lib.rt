//! The read side of a bridge: two queues and the read engine.

#![tactic(auto)]

pub mod side;
