//! How many of each thing a run has at most, and how much it is given at most.

/// How many threads a run can make. Their numbers are below it, and none is used again.
pub const THREADS: u32 = 256;

/// How many mutexes there are, how many condition variables and how many barriers. Their numbers are
/// below it.
pub const OBJECTS: u32 = 64;

/// How many threads a barrier counts at most.
pub const BARRIER_COUNT: u32 = 256;

/// How many bytes one write or read moves at most.
pub const TRANSFER: u32 = 65_536;

/// How many pages one call for memory, or one release, names at most.
pub const CALL_PAGES: u32 = 1024;

/// How many bytes the output has at most.
pub const OUTPUT: u32 = 16_777_216;

/// The greatest bound and the greatest quantum, in instructions: 2^40.
pub const MAX_BOUND: u64 = 1_099_511_627_776;

/// How many host threads work at most.
pub const MAX_WORKERS: u32 = 64;

/// How many bytes of input there are at most.
pub const MAX_INPUT: usize = 16_777_216;
