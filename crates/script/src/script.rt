//! A whole script.
mod read;

use axi::burst::Burst;
use axi::wires::{Beat, LowerRead};
use sections::line::Settings;
use sections::section::{Gate, Section};

/// What the master offers: write bursts, data beats and read bursts.
#[derive(Clone, Copy)]
pub struct Master<'a> {
    pub writes: Section<'a, Burst>,
    pub beats: Section<'a, Beat>,
    pub reads: Section<'a, Burst>,
}

/// What the block answers: write responses and read answers.
#[derive(Clone, Copy)]
pub struct Block<'a> {
    pub wcodes: Section<'a, u8>,
    pub rparts: Section<'a, LowerRead>,
}

/// A script that was read: the settings of its first line, and its six sections. Nothing is copied.
#[derive(Clone, Copy)]
pub struct Script<'a> {
    pub settings: Settings,
    pub master: Master<'a>,
    pub block: Block<'a>,
    pub gates: Section<'a, Gate<'a>>,
}
