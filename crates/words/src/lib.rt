//! A cursor over lent bytes: words with line and place, carriers of numbers, lines of numbers, and faults.

#![tactic(auto)]

pub mod carrier;
pub mod cursor;
pub mod fault;
pub mod hex;
pub mod word;
