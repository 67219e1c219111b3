//! Reading a section.
ghost use Rattle.std.specs.Prelude.{◌≡◌, IfOk};
ghost use Rattle.words.specs.Cursors.{text};
ghost use Rattle.words.specs.Reading.{ReadsAs};
ghost use Rattle.sections.specs.Sections.{rows, rows_left, section, section_rows, section_text};

use crate::entry::Entry;
use crate::section::Section;
use crate::tables::COUNT;
use std::marker::PhantomData;
use words::cursor::Cursor;
use words::fault::Fault;

/// Passes as many lines.
fn pass<'a, T: Entry<'a>>(cursor: &mut Cursor<'a>, count: u64) -> Result<(), Fault>
    ensures { ReadsAs (λ _. rows_left T.carriers count (text cursor.old) cursor.old.at) (rows T.carriers count) cursor.old cursor.new result }
{
    for _ in 0..count {
        T::read(cursor)?;
    }
    Ok(())
}

impl<'a, T: Entry<'a>> Section<'a, T> {
    /// The section under this keyword, which the cursor passes: its count, and as many lines.
    pub fn read(cursor: &mut Cursor<'a>, due: &[u8]) -> Result<Section<'a, T>, Fault>
        ensures reads { ReadsAs (section_rows T.carriers) (section due.now T.carriers) cursor.old cursor.new result }
        ensures inside { IfOk result (λ x. section_text x ≡ text cursor.old) }
    {
        let [count] = cursor.headed(due, &COUNT)?;
        let lines = *cursor;
        pass::<T>(cursor, count)?;
        Ok(Section {
            lines,
            count: count as u16,
            of: PhantomData,
        })
    }
}
