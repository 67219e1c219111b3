//! The master above: writes a page, locks it on the page's one write answer, and reads the page back.
use axi::burst::Burst;
use axi::code::Code;
use axi::wires::{Beat, Outputs};
use bridge::report::Crossed;
use std::fmt;

/// The page's first address.
pub const PAGE: u32 = 0x600;

/// The address of the page's lock word.
pub const LOCK: u32 = 0x700;

/// The words of a page.
pub const WORDS: u32 = 64;

/// What the lock word holds once the page is locked.
pub const LOCKED: u32 = 1;

/// Word `i` of the page.
pub fn page_word(i: u32) -> u32 {
    0xc0de_0000 | (i & 0xffff)
}

/// What the firmware is about.
#[derive(Clone, Copy, Debug, PartialEq, Eq)]
enum Job {
    /// Writes the page, and waits for its answer.
    Page,
    /// Writes the lock word, and waits for its answer.
    Lock,
    /// Reads the page back.
    Read,
    Done,
}

/// Where the firmware stands.
#[derive(Clone, Copy)]
pub struct Firmware {
    job: Job,
    /// The job's burst, until it has crossed.
    offer: Option<Burst>,
    /// How many of its beats have crossed.
    beats: u32,
    wrong: u32,
}

/// A burst of words.
fn burst(id: u16, addr: u32, len: u8) -> Burst {
    Burst {
        id,
        addr,
        len,
        size: 2,
        burst: 1,
        ..Burst::default()
    }
}

impl Job {
    /// The burst of a job.
    fn burst(self) -> Option<Burst> {
        match self {
            Job::Page => Some(burst(1, PAGE, 63)),
            Job::Lock => Some(burst(2, LOCK, 0)),
            Job::Read => Some(burst(3, PAGE, 63)),
            Job::Done => None,
        }
    }
}

/// The address of word `i` of the page.
fn page_address(i: u32) -> u32 {
    PAGE.wrapping_add(i.wrapping_mul(4))
}

/// A word on the lanes of its address.
fn on_lanes(addr: u32, word: u32) -> Beat {
    if addr % 8 < 4 {
        Beat {
            wdata: u64::from(word),
            wstrb: 0x0f,
        }
    } else {
        Beat {
            wdata: u64::from(word) << 32,
            wstrb: 0xf0,
        }
    }
}

/// The word that its lanes of R carry.
fn from_lanes(addr: u32, rdata: u64) -> u32 {
    let word = if addr % 8 < 4 { rdata } else { rdata >> 32 };
    (word & 0xffff_ffff) as u32
}

impl Firmware {
    /// Before the first edge.
    pub fn new() -> Firmware {
        Firmware {
            job: Job::Page,
            offer: Job::Page.burst(),
            beats: 0,
            wrong: 0,
        }
    }

    /// Whether the page was read back.
    pub fn is_done(&self) -> bool {
        self.job == Job::Done
    }

    /// The write burst on offer.
    pub fn aw(&self) -> Option<Burst> {
        match self.job {
            Job::Page | Job::Lock => self.offer,
            Job::Read | Job::Done => None,
        }
    }

    /// The data beat on offer.
    pub fn w(&self) -> Option<Beat> {
        match self.job {
            Job::Page if self.beats < WORDS => Some(on_lanes(
                page_address(self.beats),
                page_word(self.beats),
            )),
            Job::Lock if self.beats < 1 => Some(on_lanes(LOCK, LOCKED)),
            _ => None,
        }
    }

    /// The read burst on offer.
    pub fn ar(&self) -> Option<Burst> {
        match self.job {
            Job::Read => self.offer,
            _ => None,
        }
    }

    /// Goes on by what crossed.
    pub fn see(&mut self, crossed: &Crossed, o: &Outputs) {
        if crossed.aw || crossed.ar {
            self.offer = None;
        }
        if crossed.w {
            self.beats = self.beats.saturating_add(1);
        }
        if crossed.b {
            self.answered(o.b.code);
        }
        if crossed.r {
            self.compare(o.r.rdata, o.r.last);
        }
    }

    /// A write answer: the page is locked on it, and the lock word's ends the writing.
    fn answered(&mut self, code: Code) {
        if code != Code::Okay {
            self.wrong = self.wrong.saturating_add(1);
        }
        let next = match self.job {
            Job::Page => Job::Lock,
            _ => Job::Read,
        };
        self.begin(next);
    }

    /// Begins a job.
    fn begin(&mut self, job: Job) {
        self.job = job;
        self.offer = job.burst();
        self.beats = 0;
    }

    /// A read beat is held against the page.
    fn compare(&mut self, rdata: u64, last: bool) {
        if from_lanes(page_address(self.beats), rdata) != page_word(self.beats) {
            self.wrong = self.wrong.saturating_add(1);
        }
        self.beats = self.beats.saturating_add(1);
        if last {
            self.begin(Job::Done);
        }
    }
}

impl fmt::Display for Firmware {
    /// What came of it.
    fn fmt<W: fmt::Write>(&self, f: &mut fmt::Formatter<W>) -> fmt::Result {
        f.write_str(if self.is_done() && self.wrong == 0 {
            "the firmware read the page back as it was written"
        } else {
            "the firmware did not read the page back"
        })
    }
}
