//! The input's lines, read into plans and bursts.
ghost use Rattle.std.specs.Prelude.{◌≡◌, ℕ, ◌+◌, ◌<◌, ◌≤◌, ◌==◌, true, false, ◌∷◌, ◌++◌, length, position, IfOk, Some, None, MatchOption, MatchResult};
ghost use Rattle.std.specs.Iterator.{at_most};
ghost use Rattle.std.specs.Option.{option_map_or};
ghost use Rattle.axi.specs.Bursts.{burst_fits};
ghost use Rattle.axi.specs.Plans.{upper_bytes, lower_bytes, level_number, refused_plan};
ghost use Rattle.axi.specs.declared.plan.PlanRefusal.{PlanRefusal};
ghost use Rattle.explain.specs.Cuts.{Free};

use crate::fault::{BadNumber, Fault, Field, Form, Reason};
use crate::hex::number;
use axi::burst::Burst;
use axi::plan::Plan;
use listing::item::Item;
use sections::line::Settings;
use std::alloc::Global;

// Not read by `listing`: its refusals tell line and byte, those of this program the field and what is wrong with its digits.

/// The place of the first `mark`.
fn place(bytes: &[u8], mark: u8) -> Option<usize>
    ensures { result ≡ position (λ byte. byte == mark) bytes.now }
{
    bytes.iter().position(|byte| *byte == mark)
}

/// The bytes before the first `mark` and those after it, where there is one.
fn cut(bytes: &[u8], mark: u8) -> Option<(&[u8], &[u8])>
    ensures { MatchOption result (Free mark bytes.now) (λ p. Free mark p.0.now × (bytes.now ≡ p.0.now ++ mark ∷ p.1.now) × (length p.0.now + length p.1.now < length bytes.now)) }
{
    let i = place(bytes, mark)?;
    Some((&bytes[0..i], &bytes[i + 1..]))
}

/// The words of a line that are still to be read. None are left behind the last one.
#[derive(Clone, Copy)]
struct Words<'a> {
    rest: Option<&'a [u8]>,
}

impl<'a> Iterator for Words<'a> {
    type Item = &'a [u8];

    ghost remaining = { λ s. at_most (option_map_or (λ (r : _). length r.now + 1) s.rest 0) };

    /// The next word, up to a space or the line's end.
    fn next(&mut self) -> Option<&'a [u8]> {
        let rest = self.rest?;
        match cut(rest, b' ') {
            Some((word, after)) => {
                self.rest = Some(after);
                Some(word)
            }
            None => {
                self.rest = None;
                Some(rest)
            }
        }
    }
}

impl<'a> Words<'a> {
    /// All words of a line.
    fn of(line: &'a [u8]) -> Words<'a> {
        Words { rest: Some(line) }
    }

    /// The next word as a number that is at most `largest`.
    fn number(&mut self, field: Field, largest: u32) -> Result<u32, Reason>
        ensures { IfOk result (λ v. v ≤ largest) }
    {
        let word = self.next().ok_or(Reason::Missing(field))?;
        number(word, largest).map_err(|fault| {
            Reason::Number(BadNumber {
                field,
                largest,
                fault,
            })
        })
    }

    /// The next word as a number of 8 bits.
    fn byte(&mut self, field: Field) -> Result<u8, Reason> {
        Ok(self.number(field, 0xff)? as u8)
    }

    /// Nothing, where no word is left.
    fn end(mut self, form: Form) -> Result<(), Reason> {
        match self.next() {
            Some(_) => Err(Reason::Surplus(form)),
            None => Ok(()),
        }
    }
}

/// The plan of a line behind its keyword.
fn read_plan(mut words: Words) -> Result<Plan, Reason> {
    let settings = Settings {
        upper: words.byte(Field::Upper)?,
        lower: words.byte(Field::Lower)?,
        level: words.byte(Field::Level)?,
    };
    words.end(Form::Bridge)?;
    checked_plan(settings)
}

/// The plan with these settings, if there is one.
fn checked_plan(settings: Settings) -> Result<Plan, Reason>
    ensures { MatchResult result (λ p. (refused_plan settings.upper settings.lower settings.level ≡ None) × (upper_bytes p ≡ settings.upper) × (lower_bytes p ≡ settings.lower) × (level_number p.level ≡ settings.level)) (λ e. (x : PlanRefusal) × (e ≡ Reason.Plan x) × (refused_plan settings.upper settings.lower settings.level ≡ Some x)) }
{
    Plan::try_from(settings).map_err(Reason::Plan)
}

/// The burst of a line.
fn read_burst(mut words: Words) -> Result<Burst, Reason> {
    let burst = Burst {
        id: words.number(Field::Id, 0xffff)? as u16,
        addr: words.number(Field::Addr, 0xffff_ffff)?,
        len: words.byte(Field::Len)?,
        size: words.byte(Field::Size)?,
        burst: words.byte(Field::Burst)?,
        lock: words.byte(Field::Lock)?,
        cache: words.byte(Field::Cache)?,
        prot: words.byte(Field::Prot)?,
    };
    words.end(Form::Burst)?;
    checked_burst(burst)
}

/// The burst, if its wires can carry every field.
fn checked_burst(burst: Burst) -> Result<Burst, Reason>
    ensures { MatchResult result (λ b. (b ≡ burst) × (burst_fits burst ≡ true)) (λ e. (e ≡ Reason.FieldTooLarge) × (burst_fits burst ≡ false)) }
{
    burst.fits().then_some(burst).ok_or(Reason::FieldTooLarge)
}

/// The words behind the keyword of a plan, where the line begins with it.
fn behind_keyword(line: &[u8]) -> Option<Words> {
    let mut words = Words::of(line);
    (words.next()? == b"bridge".as_slice()).then_some(words)
}

/// What a line says, under the plan in force.
fn read_line(plan: Option<Plan>, line: &[u8]) -> Result<Item, Reason> {
    let line = line.strip_suffix(b"\n").ok_or(Reason::Unended)?;
    if let Some(words) = behind_keyword(line) {
        return Ok(Item::Bridge(read_plan(words)?));
    }
    let plan = plan.ok_or(Reason::NoPlan)?;
    Ok(Item::Burst(plan, read_burst(Words::of(line))?))
}

/// What each line of the input says, or what is wrong with the first bad one.
pub fn read_items(heap: Global, text: &[u8]) -> Result<Vec<Item>, Fault> {
    let mut items = Vec::new(heap);
    let mut plan = None;
    for (number, line) in (1..).zip(text.split_inclusive(|byte| *byte == b'\n')) {
        let item = read_line(plan, line).map_err(|reason| Fault::Line(number, reason))?;
        plan = Some(item.plan());
        items.push(item)?;
    }
    if items.is_empty() {
        return Err(Fault::Line(1, Reason::NoPlan));
    }
    Ok(items)
}
