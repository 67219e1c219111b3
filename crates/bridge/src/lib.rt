//! The bridge from a full AXI4 master to an AXI4-Lite block, one rising clock edge a call.

#![tactic(auto)]

pub mod bridge;
pub mod report;
pub mod slots;
