//! What a line of a section stands for.
ghost use Rattle.std.specs.Prelude.{◌≡◌, ℕ, List, IfOk};
ghost use Rattle.words.specs.Cursors.{text};
ghost use Rattle.words.specs.Reading.{ReadsAs};
ghost use Rattle.words.specs.declared.carrier.Carrier as declared;
ghost use Rattle.sections.specs.Sections.{Row, entry};
ghost use Rattle.sections.specs.Lines.{burst_carriers};
ghost use Rattle.sections.specs.Values.{GateAt, beat_carriers, code_carriers, part_carriers, gate_carriers, burst_of, beat_of, code_of, part_of, gate_of, gate_at};

use crate::section::Gate;
use crate::tables::{BEAT, BURST, CODE, GATE, PART};
use axi::burst::Burst;
use axi::wires::{Beat, LowerRead};
use words::cursor::Cursor;
use words::fault::Fault;

/// What a line of a section stands for.
pub trait Entry<'a>: Copy {
    // The carriers of the line's numbers.
    ghost carriers: { List declared.Carrier };

    // What contracts say of an entry: itself, or its place in the script too.
    ghost Seen: { Type 0 };

    ghost seen: { Self → Seen };

    // What a line with these numbers stands for.
    ghost of: { Row → Seen };

    // Whether an entry that points into a script points into this one.
    ghost inside: { List ℕ → Self → Type 0 } = { λ _ _. Unit {0} };

    /// The entry of a line, which the cursor passes.
    fn read(cursor: &mut Cursor<'a>) -> Result<Self, Fault>
        ensures reads { ReadsAs seen (entry carriers of) cursor.old cursor.new result }
        ensures inside { IfOk result (inside (text cursor.old)) };
}

impl<'a> Entry<'a> for Burst {
    ghost carriers = { burst_carriers };

    ghost Seen = { Self };

    ghost seen = { λ b. b };

    ghost of = { burst_of };

    fn read(cursor: &mut Cursor<'a>) -> Result<Burst, Fault> {
        let [id, addr, len, size, burst, lock, cache, prot] = cursor.numbers(&BURST)?;
        Ok(Burst {
            id: id as u16,
            addr: addr as u32,
            len: len as u8,
            size: size as u8,
            burst: burst as u8,
            lock: lock as u8,
            cache: cache as u8,
            prot: prot as u8,
        })
    }
}

impl<'a> Entry<'a> for Beat {
    ghost carriers = { beat_carriers };

    ghost Seen = { Self };

    ghost seen = { λ b. b };

    ghost of = { beat_of };

    fn read(cursor: &mut Cursor<'a>) -> Result<Beat, Fault> {
        let [wdata, wstrb] = cursor.numbers(&BEAT)?;
        Ok(Beat {
            wdata,
            wstrb: wstrb as u8,
        })
    }
}

/// A write response.
impl<'a> Entry<'a> for u8 {
    ghost carriers = { code_carriers };

    ghost Seen = { ℕ };

    ghost seen = { λ n. n };

    ghost of = { code_of };

    fn read(cursor: &mut Cursor<'a>) -> Result<u8, Fault> {
        let [lbresp] = cursor.numbers(&CODE)?;
        Ok(lbresp as u8)
    }
}

impl<'a> Entry<'a> for LowerRead {
    ghost carriers = { part_carriers };

    ghost Seen = { Self };

    ghost seen = { λ p. p };

    ghost of = { part_of };

    fn read(cursor: &mut Cursor<'a>) -> Result<LowerRead, Fault> {
        let [lrdata, lrresp] = cursor.numbers(&PART)?;
        Ok(LowerRead {
            lrdata,
            lrresp: lrresp as u8,
        })
    }
}

impl<'a> Entry<'a> for Gate<'a> {
    ghost carriers = { gate_carriers };

    ghost Seen = { GateAt };

    ghost seen = { gate_at };

    ghost of = { gate_of };

    ghost inside = { λ s g. text g.at ≡ s };

    fn read(cursor: &mut Cursor<'a>) -> Result<Gate<'a>, Fault> {
        let at = *cursor;
        let [bits] = cursor.numbers(&GATE)?;
        Ok(Gate {
            bits: bits as u16,
            at,
        })
    }
}
