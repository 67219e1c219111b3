//! The carriers of each kind of line.
use words::carrier::Carrier;
use words::carrier::Carrier::{Bits8, Bits10, Bits16, Bits32, Bits64};

/// U L level.
pub const BRIDGE: [Carrier; 3] = [Bits8, Bits8, Bits8];

/// A count.
pub const COUNT: [Carrier; 1] = [Bits16];

/// ID ADDR LEN SIZE BURST LOCK CACHE PROT.
pub const BURST: [Carrier; 8] = [Bits16, Bits32, Bits8, Bits8, Bits8, Bits8, Bits8, Bits8];

/// WDATA WSTRB.
pub const BEAT: [Carrier; 2] = [Bits64, Bits8];

/// LBRESP.
pub const CODE: [Carrier; 1] = [Bits8];

/// LRDATA LRRESP.
pub const PART: [Carrier; 2] = [Bits64, Bits8];

/// A gate.
pub const GATE: [Carrier; 1] = [Bits10];
