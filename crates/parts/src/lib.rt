//! Where the beats of a burst go on an AXI4-Lite bus: the address of each beat, its parts, and the lanes of each part.

#![tactic(auto)]

pub mod cut;
pub mod lanes;
pub mod walk;
