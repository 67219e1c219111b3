//! Bursts of a full AXI4 master before an AXI4-Lite block: settings, the wires of an edge and their checks, verdicts, response codes.

#![tactic(auto)]

pub mod burst;
pub mod code;
pub mod plan;
pub mod verdict;
pub mod wires;
