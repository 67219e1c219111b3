//! Sections of a script: a cursor at the first line that is left, and how many are left.
mod next;
mod read;

use std::marker::PhantomData;
use words::cursor::Cursor;

/// The lines of a section that are left, and what each stands for. Nothing is copied.
#[derive(Clone, Copy)]
pub struct Section<'a, T> {
    lines: Cursor<'a>,
    count: u16,
    of: PhantomData<T>,
}

/// A gate: which wires may be high on an edge, and the cursor at its word, which has its line and place.
#[derive(Clone, Copy)]
pub struct Gate<'a> {
    pub bits: u16,
    pub at: Cursor<'a>,
}
