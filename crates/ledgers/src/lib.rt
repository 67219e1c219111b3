//! The promise of a bridge between an AXI4 master and an AXI4-Lite block, over whole runs, and the proof that a bridge with one part
//! under way at a time keeps it, whatever its bursts, parts and answers are made of. The statements stand in `specs/`.

#![tactic(auto)]

ghost use Rattle.ledgers.specs.Numbered.{NumberedBridgesKeepPromise};

/// The theorem as far as a contract can state it: for bursts, beats, parts, responses and answers that are numbers. The proof cites the
/// theorem for any.
pub fn promise_stands() -> u8
    ensures { NumberedBridgesKeepPromise }
{
    0
}
