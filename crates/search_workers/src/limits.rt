// The limits of workers and their desk. Each of these numbers stands only here.
use bid_rules::limits::MOST_STEPS;
use nash_bounds::limits::BLOCK_TASKS;

/// The most workers that share a search.
pub const MOST_WORKERS: u8 = 16;
/// The most tickets of one worker: one for each task of a block, and one past the last.
pub const MOST_TICKETS: u32 = BLOCK_TASKS + 1;
/// The most prefixes that a worker counts between two reports.
pub const LONGEST_PIECE: u16 = 256;
/// The most that a desk's node word shows: each worker may report once when it is above what is left.
pub const MOST_REPORTED: u32 = MOST_STEPS + LONGEST_PIECE as u32 * MOST_WORKERS as u32;
/// The most that a desk's ticket word shows: each worker may draw `MOST_TICKETS`.
pub const MOST_DRAWN: u32 = MOST_TICKETS * MOST_WORKERS as u32;
/// The calling thread counts up to this many prefixes of a block alone, since starting threads takes longer.
pub const FEW_PREFIXES: u32 = 500;
