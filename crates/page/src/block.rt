//! The register block below: 65 words from the page's first address on, with stalls in a fixed pattern on each of its five channels.
use crate::firmware::{LOCKED, PAGE, WORDS, page_word};
use axi::wires::{Beat, Outputs, Place};
use bridge::report::Crossed;
use std::fmt;

/// The words of the page, and its lock word.
const HELD: usize = 65;

/// The place of the lock word.
const LOCK_WORD: usize = 64;

/// The write under way.
#[derive(Clone, Copy, Debug, PartialEq, Eq)]
enum Write {
    /// What has come of it.
    Coming(Option<Place>, Option<Beat>),
    /// It acted, and is to be answered.
    Acted,
}

/// No write is under way.
const NO_WRITE: Write = Write::Coming(None, None);

/// The words held, and the transfers under way.
#[derive(Clone, Copy)]
pub struct Block {
    words: [u32; HELD],
    write: Write,
    read: Option<u32>,
}

/// The bits of a word that its strobes name: those of byte 0 by bit 0, and so on.
fn mask(strobes: u8) -> u32 {
    u32::from_le_bytes([1, 2, 4, 8].map(|strobe| if strobes & strobe == 0 { 0 } else { 0xff }))
}

impl Block {
    /// A block whose words are all 0.
    pub fn new() -> Block {
        Block {
            words: [0; HELD],
            write: NO_WRITE,
            read: None,
        }
    }

    /// LAWREADY: no write is under way, but for the stalls.
    pub fn lawready(&self, edge: u32) -> bool {
        matches!(self.write, Write::Coming(None, _)) && edge % 3 != 1
    }

    /// LWREADY: no data wait, but for the stalls.
    pub fn lwready(&self, edge: u32) -> bool {
        matches!(self.write, Write::Coming(_, None)) && edge % 5 < 3
    }

    /// LBVALID: a write is to be answered, but for the stalls.
    pub fn lbvalid(&self, edge: u32) -> bool {
        self.write == Write::Acted && edge % 7 != 2
    }

    /// LARREADY: no read is under way, but for the stalls.
    pub fn larready(&self, edge: u32) -> bool {
        self.read.is_none() && edge % 4 != 3
    }

    /// The word that LR offers: one that is to be given, but for the stalls.
    pub fn lr(&self, edge: u32) -> Option<u32> {
        self.read.filter(|_| edge % 6 != 5)
    }

    /// The index of the word at an address, past the last for an address outside.
    fn index(addr: u32) -> usize {
        (addr.wrapping_sub(PAGE) / 4) as usize
    }

    /// Goes on by what crossed.
    pub fn see(&mut self, crossed: &Crossed, o: &Outputs) {
        if crossed.lb {
            self.write = NO_WRITE;
        }
        if crossed.lr {
            self.read = None;
        }
        if let Write::Coming(address, data) = &mut self.write {
            if crossed.law {
                *address = Some(o.law);
            }
            if crossed.lw {
                *data = Some(o.lw);
            }
        }
        if crossed.lar {
            self.read = Some(self.word(o.lar.addr));
        }
        self.act();
    }

    /// The word at an address, 0 outside.
    fn word(&self, addr: u32) -> u32 {
        self.words.get(Block::index(addr)).copied().unwrap_or(0)
    }

    /// A write acts once its address and its data are there.
    fn act(&mut self) {
        if let Write::Coming(Some(place), Some(beat)) = self.write {
            self.put(place.addr, beat);
            self.write = Write::Acted;
        }
    }

    /// Writes the bytes of the word at an address that the strobes name, none outside.
    fn put(&mut self, addr: u32, beat: Beat) {
        if let Some(word) = self.words.get_mut(Block::index(addr)) {
            let bits = mask(beat.wstrb);
            let new = (beat.wdata & 0xffff_ffff) as u32;
            *word = (*word & !bits) | (new & bits);
        }
    }

    /// Whether the words of the page are as the firmware wrote them.
    fn holds_page(&self) -> bool {
        self.words[..LOCK_WORD]
            .iter()
            .copied()
            .eq((0..WORDS).map(page_word))
    }
}

impl fmt::Display for Block {
    /// Whether it holds the page and the lock.
    fn fmt<W: fmt::Write>(&self, f: &mut fmt::Formatter<W>) -> fmt::Result {
        f.write_str(if !self.holds_page() {
            "the block does not hold the page"
        } else if self.words[LOCK_WORD] != LOCKED {
            "the block holds the page, not locked"
        } else {
            "the block holds the page, locked"
        })
    }
}
