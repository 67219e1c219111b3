//! A first-in first-out queue in slots that its owner lends.

#![tactic(auto)]

pub mod ring;

pub use ring::{Full, Ring};
