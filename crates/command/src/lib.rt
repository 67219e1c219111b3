//! How a program ends: why it fails, and with which status.

#![tactic(auto)]

pub mod failure;
pub mod status;
