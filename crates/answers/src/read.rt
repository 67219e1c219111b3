//! Data with a response as an answer.
ghost use Rattle.answers.specs.Join.{join_reads, no_read, part_answer};
ghost use Rattle.answers.specs.ReadLanes.{JoinsLaneByLane};
ghost use Rattle.std.specs.Prelude.{◌≡◌};
ghost use Rattle.std.proofs.Common.{rules};
ghost use Rattle.std.specs.Int.Bits.{or_zero_r};
ghost use Rattle.answers.specs.OrLaws.{or_assoc};

use crate::answer::Answer;
use axi::code::Code;
use axi::plan::Plan;
use axi::wires::LowerRead;
use parts::lanes::raise;

/// The data of a read beat on the lanes of the upper bus, and its response.
#[derive(Clone, Copy)]
pub struct ReadAnswer {
    pub rdata: u64,
    pub code: Code,
}

impl ReadAnswer {
    // The plan stays a parameter: a part holds its address alone.
    /// What the block's answer to a part at this address counts for: its data on the part's own lanes, all others 0.
    pub fn of_part(plan: Plan, at: u32, lr: LowerRead) -> ReadAnswer
        ensures value { result ≡ part_answer plan at lr }
        ensures lanes { JoinsLaneByLane plan }
    {
        ReadAnswer {
            rdata: raise(plan, at, lr.lrdata),
            code: Code::from(lr.lrresp),
        }
    }
}

/// A read answer joins its data by bitwise or, and its responses as write answers do.
impl Answer for ReadAnswer {
    ghost none = { no_read };

    ghost joined = { join_reads };

    ghost left = { Prim.search rules };

    ghost right = { Prim.search (rules, or_zero_r) };

    ghost assoc = { Prim.search (rules, or_assoc) };

    fn neutral() -> ReadAnswer {
        ReadAnswer {
            rdata: 0,
            code: Code::neutral(),
        }
    }

    fn join(self, other: ReadAnswer) -> ReadAnswer {
        ReadAnswer {
            rdata: self.rdata | other.rdata,
            code: self.code.join(other.code),
        }
    }
}
