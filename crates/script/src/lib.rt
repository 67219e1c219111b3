//! Scripts of a bench run.

#![tactic(auto)]

pub mod script;
