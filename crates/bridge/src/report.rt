//! What an edge's result names.
ghost use Rattle.bridge.specs.Reports.{report_of_events, no_report, both_verdicts};
ghost use Rattle.std.specs.Prelude.{◌≡◌};

use axi::plan::Plan;
use axi::verdict::Verdict;
use engines::taken::Taken;
use reads::side::ReadEvents;
use writes::side::WriteEvents;

/// The channels that crossed on an edge.
#[derive(Clone, Copy, Default)]
pub struct Crossed {
    pub aw: bool,
    pub w: bool,
    pub b: bool,
    pub ar: bool,
    pub r: bool,
    pub law: bool,
    pub lw: bool,
    pub lb: bool,
    pub lar: bool,
    pub lr: bool,
}

/// The verdict on a burst taken above.
#[derive(Clone, Copy)]
pub struct Verdicts {
    /// At the bridge's own level.
    pub verdict: Verdict,
    /// At full protection.
    pub protected: Verdict,
}

// `crossed` has a flag for every channel, so AW and AR stand there beside the verdicts on their bursts.
/// What an edge did.
#[derive(Clone, Copy, Default)]
pub struct Report {
    pub crossed: Crossed,
    /// The verdict on a write burst, where one was taken.
    pub write: Option<Verdicts>,
    /// The verdict on a read burst, where one was taken.
    pub read: Option<Verdicts>,
}

impl Verdicts {
    /// The verdicts on a burst that was taken, if one was.
    fn of(plan: Plan, taken: Option<Taken>) -> Option<Verdicts>
        ensures { result ≡ both_verdicts plan taken }
    {
        taken.map(|taken| Verdicts {
            verdict: taken.verdict,
            protected: plan.judge_protected(taken.burst),
        })
    }
}

impl Report {
    /// Nothing crossed.
    pub fn nothing() -> Report
        ensures { result ≡ no_report }
    {
        Report::default()
    }

    /// What crossed on both sides.
    pub fn new(plan: Plan, writes: WriteEvents, reads: ReadEvents) -> Report
        ensures { result ≡ report_of_events plan writes reads }
    {
        Report {
            crossed: Crossed {
                aw: writes.aw.is_some(),
                w: writes.w.is_some(),
                b: writes.b,
                ar: reads.ar.is_some(),
                r: reads.r,
                law: writes.law,
                lw: writes.lw,
                lb: writes.lb,
                lar: reads.lar,
                lr: reads.lr,
            },
            write: Verdicts::of(plan, writes.aw),
            read: Verdicts::of(plan, reads.ar),
        }
    }
}
