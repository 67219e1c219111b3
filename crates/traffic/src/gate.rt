//! The gates of the edges: a bit for each wire of the master and the block that is high.

/// The gate of an edge on which every wire is high.
pub const ALL: u32 = 0x3ff;

/// The first state of the shift register behind the stalls.
pub const SEED: u32 = 0x2545_f491;

/// The next state of a shift register that never repeats within 2^32 - 1 edges.
pub fn shifted(noise: u32) -> u32 {
    let a = noise ^ (noise << 13);
    let b = a ^ (a >> 17);
    b ^ (b << 5)
}
