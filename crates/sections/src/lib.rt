//! The lines and sections of a script: the line of a bridge and of a burst, and sections of counted lines.

#![tactic(auto)]

pub mod entry;
pub mod line;
pub mod section;
pub mod tables;
