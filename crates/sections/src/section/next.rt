//! The entries of a section, one after the other.
ghost use Rattle.std.specs.Iterator.{at_most};
ghost use Rattle.sections.specs.Values.{NextGives};

use crate::entry::Entry;
use crate::section::Section;

impl<'a, T: Entry<'a>> Iterator for Section<'a, T> {
    type Item = T;

    ghost next_gives = { NextGives T.carriers T.of T.seen T.inside };

    ghost remaining = { λ s. at_most s.count };

    /// The next entry.
    fn next(&mut self) -> Option<T> {
        if self.count == 0 {
            return None;
        }
        match T::read(&mut self.lines) {
            Ok(entry) => {
                self.count -= 1;
                Some(entry)
            }
            Err(_) => {
                self.count = 0;
                None
            }
        }
    }
}
