//! What crosses on an edge, and its lines in a transcript.
ghost use Rattle.std.specs.Fmt.{WritesOnOk};
ghost use Rattle.transcript.specs.Printing.{Writes, spaced};
ghost use Rattle.transcript.specs.Printing.Base.{Hex};
ghost use Rattle.transcript.specs.Crossings.{channel, fields, crossing_text, entry_line, edge_lines, verdict_told, edge_crossings};
ghost use Rattle.std.specs.Prelude.{◌≡◌, ◌≤◌, take, Some};

use crate::print::{number, numbers, word};
use axi::verdict::Verdict;
use axi::wires::{Beat, Inputs, LowerRead, Outputs, Place, ReadBeat, WriteAnswer};
use bridge::report::{Report, Verdicts};
use engines::taken::Taken;
use std::alloc::AllocError;
use std::fmt;

/// A payload that crosses on a channel.
#[derive(Clone, Copy)]
pub enum Crossing {
    Aw(Taken),
    W(Beat),
    B(WriteAnswer),
    Ar(Taken),
    R(ReadBeat),
    Law(Place),
    Lw(Beat),
    Lb(u8),
    Lar(Place),
    Lr(LowerRead),
}

/// The channel and the fields of the payload.
impl fmt::Display for Crossing {
    ghost output = { λ c. Some (crossing_text c) };

    fn fmt<W: fmt::Write>(&self, f: &mut fmt::Formatter<W>) -> fmt::Result {
        f.write_str(self.name())?;
        self.write_fields(f)
    }
}

/// Numbers in hexadecimal, with a space before each.
fn write_numbers<W: fmt::Write>(f: &mut fmt::Formatter<W>, numbers: &[u64]) -> fmt::Result
    ensures { WritesOnOk W.write_str_gives f.old result (spaced Hex numbers.now) f.new }
{
    for number in numbers {
        write!(f, " {number:x}")?;
    }
    Ok(())
}

impl Crossing {
    // Beside `Display`, so that a contract says the word of each channel.
    /// The word that stands for the channel.
    fn name(self) -> &'static str
        ensures { result.now ≡ channel self }
    {
        match self {
            Crossing::Aw(_) => "AW",
            Crossing::W(_) => "W",
            Crossing::B(_) => "B",
            Crossing::Ar(_) => "AR",
            Crossing::R(_) => "R",
            Crossing::Law(_) => "LAW",
            Crossing::Lw(_) => "LW",
            Crossing::Lb(_) => "LB",
            Crossing::Lar(_) => "LAR",
            Crossing::Lr(_) => "LR",
        }
    }

    /// The fields of the payload at the front of four numbers, and how many they are.
    fn fields(self) -> ([u64; 4], usize)
        ensures count { result.1 ≤ 4 }
        ensures fields { take result.1 result.0 ≡ fields self }
    {
        match self {
            Crossing::Aw(taken) | Crossing::Ar(taken) => {
                let verdict = u8::from(taken.verdict);
                ([taken.burst.id.into(), verdict.into(), 0, 0], 2)
            }
            Crossing::W(beat) | Crossing::Lw(beat) => ([beat.wdata, beat.wstrb.into(), 0, 0], 2),
            Crossing::B(answer) => {
                let code = u8::from(answer.code);
                ([answer.id.into(), code.into(), 0, 0], 2)
            }
            Crossing::R(beat) => {
                let code = u8::from(beat.code);
                let last = u64::from(beat.last);
                ([beat.id.into(), beat.rdata, code.into(), last], 4)
            }
            Crossing::Law(place) | Crossing::Lar(place) => {
                ([place.addr.into(), place.prot.into(), 0, 0], 2)
            }
            Crossing::Lb(code) => ([code.into(), 0, 0, 0], 1),
            Crossing::Lr(read) => ([read.lrdata, read.lrresp.into(), 0, 0], 2),
        }
    }

    /// The fields of the payload, with a space before each.
    fn write_fields<W: fmt::Write>(self, f: &mut fmt::Formatter<W>) -> fmt::Result
        ensures { WritesOnOk W.write_str_gives f.old result (spaced Hex (fields self)) f.new }
    {
        let (fields, count) = self.fields();
        write_numbers(f, &fields[..count])
    }

    // Straight into the vector: through `Display` a short line takes four times the work.
    /// The line of a crossing: the edge, the channel and the fields.
    pub fn print(self, out: &mut Vec<u8>, edge: u64) -> Result<(), AllocError>
        ensures { Writes result out.old.items out.new.items (entry_line edge self) }
    {
        number(out, edge)?;
        out.push(b' ')?;
        word(out, self.name())?;
        let (fields, count) = self.fields();
        numbers(out, &fields[..count])
    }
}

/// How many channels there are.
pub const CHANNELS: usize = 10;

/// The verdict on a burst that is taken.
fn verdict(told: Option<Verdicts>) -> Verdict
    ensures { result ≡ verdict_told told }
{
    told.map_or(Verdict::Forwarded, |verdicts| verdicts.verdict)
}

/// What crosses on an edge, channel by channel, in the order of the transcript.
pub fn crossings(report: &Report, x: &Inputs, o: &Outputs) -> [Option<Crossing>; CHANNELS]
    ensures { result ≡ edge_crossings report.now x.now o.now }
{
    let crossed = report.crossed;
    let write = Taken {
        burst: x.aw,
        verdict: verdict(report.write),
    };
    let read = Taken {
        burst: x.ar,
        verdict: verdict(report.read),
    };
    [
        crossed.aw.then_some(Crossing::Aw(write)),
        crossed.w.then_some(Crossing::W(x.w)),
        crossed.b.then_some(Crossing::B(o.b)),
        crossed.ar.then_some(Crossing::Ar(read)),
        crossed.r.then_some(Crossing::R(o.r)),
        crossed.law.then_some(Crossing::Law(o.law)),
        crossed.lw.then_some(Crossing::Lw(o.lw)),
        crossed.lb.then_some(Crossing::Lb(x.lbresp)),
        crossed.lar.then_some(Crossing::Lar(o.lar)),
        crossed.lr.then_some(Crossing::Lr(x.lr)),
    ]
}

/// The lines of an edge.
pub fn print_edge(
    out: &mut Vec<u8>,
    edge: u64,
    crossings: &[Option<Crossing>],
) -> Result<(), AllocError>
    ensures { Writes result out.old.items out.new.items (edge_lines edge crossings.now) }
{
    for crossing in crossings.iter().flatten() {
        crossing.print(out, edge)?;
    }
    Ok(())
}
