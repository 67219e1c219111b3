//! Plays a script through a bridge and prints a transcript of what crossed.

#![tactic(auto)]

mod entries;
pub mod play;
mod player;
