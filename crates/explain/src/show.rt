//! What becomes of a burst, in words and numbers.
ghost use Rattle.std.specs.Prelude.{◌≡◌, ◌+◌};
ghost use Rattle.parts.specs.Lanes.{lane};
ghost use Rattle.axi.specs.Plans.{lower_bytes};
ghost use Rattle.parts.specs.declared.cut.Parts.{Parts};
ghost use Rattle.std.specs.Iterator.{at_most};
ghost use Rattle.std.specs.Option.{option_map_or};

use axi::burst::Burst;
use axi::plan::Plan;
use axi::verdict::Verdict;
use listing::item::Item;
use parts::cut::Parts;
use parts::lanes::lane;
use parts::walk::Walk;
use std::fmt;

/// A verdict by its number and in words.
#[derive(Clone, Copy)]
struct Ruling(Verdict);

impl fmt::Display for Ruling {
    fn fmt<W: fmt::Write>(&self, f: &mut fmt::Formatter<W>) -> fmt::Result {
        let verdict = self.0;
        let number = u8::from(verdict);
        write!(f, "{number} {verdict}")
    }
}

/// How many there are of a thing.
#[derive(Clone, Copy)]
struct Count(u32, &'static str);

impl fmt::Display for Count {
    fn fmt<W: fmt::Write>(&self, f: &mut fmt::Formatter<W>) -> fmt::Result {
        let number = self.0;
        let thing = self.1;
        let plural = if number == 1 { "" } else { "s" };
        write!(f, "{number} {thing}{plural}")
    }
}

/// The lanes of the upper bus that a part uses, first and last.
#[derive(Clone, Copy, Debug, PartialEq, Eq)]
pub struct Lanes {
    /// The lowest lane.
    pub first: u32,
    /// The highest lane.
    pub last: u32,
}

impl Lanes {
    /// The lanes of a part at this address: as many as the lower bus has.
    pub fn of(plan: Plan, at: u32) -> Lanes
        ensures first { result.first ≡ lane plan at }
        ensures last { result.last + 1 ≡ lane plan at + lower_bytes plan }
    {
        let first = lane(plan, at);
        Lanes {
            first,
            last: first + plan.lower() - 1,
        }
    }
}

// Not the library's `successors`: that may have no end, and a `for` over it has no proof.
/// The parts of a beat that are still to come.
#[derive(Clone, Copy)]
struct Coming {
    plan: Plan,
    next: Option<Parts>,
}

impl Iterator for Coming {
    type Item = Parts;

    ghost remaining = { λ s. at_most (option_map_or (λ (p : Parts). p.more + 1) s.next 0) };

    fn next(&mut self) -> Option<Parts> {
        let part = self.next?;
        self.next = part.next(self.plan);
        Some(part)
    }
}

/// The addresses of the beats that are still to come.
#[derive(Clone, Copy)]
struct Beats {
    walk: Walk,
}

impl Iterator for Beats {
    type Item = u32;

    ghost remaining = { λ s. at_most s.walk.count };

    fn next(&mut self) -> Option<u32> {
        if self.walk.is_empty() {
            return None;
        }
        let (at, rest) = self.walk.next();
        self.walk = rest;
        Some(at)
    }
}

/// A burst under the plan in force.
#[derive(Clone, Copy)]
struct Planned {
    plan: Plan,
    burst: Burst,
}

impl Planned {
    /// The addresses of the burst's beats.
    fn beats(self) -> Beats {
        Beats {
            walk: Walk::new(self.burst),
        }
    }

    /// The parts of a beat at this address.
    fn parts(self, at: u32) -> Coming {
        Coming {
            plan: self.plan,
            next: Some(Parts::of(self.plan, self.burst, at)),
        }
    }

    /// A line for each part of a beat at this address.
    fn show_parts<W: fmt::Write>(self, f: &mut fmt::Formatter<W>, at: u32) -> fmt::Result {
        for part in self.parts(at) {
            let at = part.at;
            let Lanes { first, last } = Lanes::of(self.plan, at);
            writeln!(f, "    part {at:x} lanes {first}-{last}")?;
        }
        Ok(())
    }

    /// The lines of each beat.
    fn show_beats<W: fmt::Write>(self, f: &mut fmt::Formatter<W>) -> fmt::Result {
        for (number, at) in self.beats().enumerate() {
            writeln!(f, "  beat {number} at {at:x}")?;
            self.show_parts(f, at)?;
        }
        Ok(())
    }
}

impl fmt::Display for Planned {
    /// What the burst is, the verdicts, and its beats where it goes down.
    fn fmt<W: fmt::Write>(&self, f: &mut fmt::Formatter<W>) -> fmt::Result {
        let Planned { plan, burst } = *self;
        let id = burst.id;
        let addr = burst.addr;
        let beats = Count(burst.beats(), "beat");
        let bytes = Count(burst.bytes(), "byte");
        let kind = burst.kind();
        writeln!(f, "burst {id:x} at {addr:x}: {beats} of {bytes}, {kind}")?;
        let verdict = plan.judge(burst);
        let here = Ruling(verdict);
        let protected = Ruling(plan.judge_protected(burst));
        writeln!(f, "  verdict {here}; at full protection {protected}")?;
        if verdict.is_forwarded() {
            self.show_beats(f)
        } else {
            writeln!(f, "  refused, nothing goes down")
        }
    }
}

/// The line of a plan.
fn show_plan<W: fmt::Write>(f: &mut fmt::Formatter<W>, plan: Plan) -> fmt::Result {
    let upper = plan.upper();
    let lower = plan.lower();
    let level = plan.level;
    let number = u8::from(level);
    writeln!(
        f,
        "bridge {upper} bytes over {lower}, level {number} {level}"
    )
}

/// What a line of the input comes to, in words and numbers.
#[derive(Clone, Copy)]
pub struct Shown(pub Item);

impl fmt::Display for Shown {
    fn fmt<W: fmt::Write>(&self, f: &mut fmt::Formatter<W>) -> fmt::Result {
        match self.0 {
            Item::Bridge(plan) => show_plan(f, plan),
            Item::Burst(plan, burst) => write!(f, "{}", Planned { plan, burst }),
        }
    }
}
