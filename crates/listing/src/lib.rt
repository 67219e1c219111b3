//! Lists of plans and bursts: what each line says, or why the list is refused.

#![tactic(auto)]

pub mod item;
pub mod read;
pub mod refusal;
