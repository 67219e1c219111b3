//! Reading a whole script.
ghost use Rattle.words.specs.Cursors.{text};
ghost use Rattle.script.specs.Laws.{Points, ReadsBack};
ghost use Rattle.words.specs.Reading.{ReadsAs};
ghost use Rattle.script.specs.Scripts.{script, master, block, edges, master_left, block_left, Reads};
ghost use Rattle.sections.specs.Sections.{section_text};
ghost use Rattle.sections.specs.Values.{gates};
ghost use Rattle.std.specs.Prelude.{◌≡◌, IfOk};

use crate::script::{Block, Master, Script};
use sections::line::Settings;
use sections::section::{Gate, Section};
use words::cursor::Cursor;
use words::fault::{Fault, Wrong};

/// The largest length of a script.
const LIMIT: usize = 16_384;

impl<'a> Master<'a> {
    /// The sections of the master, which the cursor passes.
    #[tactic(auto, unfolding(sections::specs::Values::bursts, sections::specs::Values::beats))]
    fn read(cursor: &mut Cursor<'a>) -> Result<Self, Fault>
        ensures { ReadsAs master_left master cursor.old cursor.new result }
    {
        Ok(Master {
            writes: Section::read(cursor, b"writes")?,
            beats: Section::read(cursor, b"beats")?,
            reads: Section::read(cursor, b"reads")?,
        })
    }
}

impl<'a> Block<'a> {
    /// The sections of the block, which the cursor passes.
    #[tactic(auto, unfolding(sections::specs::Values::write_codes, sections::specs::Values::read_parts))]
    fn read(cursor: &mut Cursor<'a>) -> Result<Self, Fault>
        ensures { ReadsAs block_left block cursor.old cursor.new result }
    {
        Ok(Block {
            wcodes: Section::read(cursor, b"wcodes")?,
            rparts: Section::read(cursor, b"rparts")?,
        })
    }
}

/// The gates, which are the last section.
#[tactic(auto, unfolding(sections::specs::Values::gates))]
fn edges<'a>(cursor: &mut Cursor<'a>) -> Result<Section<'a, Gate<'a>>, Fault>
    ensures reads { ReadsAs gates edges cursor.old cursor.new result }
    ensures inside { IfOk result (λ x. section_text x ≡ text cursor.old) }
{
    let section = Section::read(cursor, b"gates")?;
    cursor.end()?;
    Ok(section)
}

impl<'a> Script<'a> {
    /// The script in these bytes, or the first fault.
    #[tactic(auto, unfolding(crate::specs::Scripts::script))]
    fn parse(bytes: &'a [u8]) -> Result<Script<'a>, Fault>
        ensures read { Reads (script bytes.now) result }
        ensures inside { IfOk result (λ x. section_text x.gates ≡ bytes.now) }
    {
        let mut cursor = Cursor::new(bytes);
        if bytes.len() > LIMIT {
            return Err(cursor.fault(Wrong::TooLong));
        }
        Ok(Script {
            settings: Settings::read(&mut cursor)?,
            master: Master::read(&mut cursor)?,
            block: Block::read(&mut cursor)?,
            gates: edges(&mut cursor)?,
        })
    }

    /// Reads a script: what it holds is what the format says, or the first fault is.
    /// A script that is written out from its values reads back as those values, and a fault points into the script.
    pub fn read(bytes: &'a [u8]) -> Result<Script<'a>, Fault>
        ensures read { Reads (script bytes.now) result }
        ensures inside { IfOk result (λ x. section_text x.gates ≡ bytes.now) }
        ensures back { ReadsBack bytes.now result }
        ensures points { Points bytes.now result }
    {
        Script::parse(bytes)
    }
}
