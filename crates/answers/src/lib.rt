//! Answers that join: a neutral answer and a joining, for a response alone and for data with a response, and what collects them.

#![tactic(auto)]

pub mod answer;
pub mod collector;
pub mod read;
pub mod worked;
