// Places and sizes of a journal's parts, in bytes.

use arrayvec::ArrayVec;

/// The length of the start line, and so the place of the secret.
pub const LINE_SIZE: usize = 16;

/// The length of the secret.
pub const SECRET_SIZE: usize = 32;

/// The size of a gate.
pub const GATE_SIZE: usize = 1;

/// The size of the number that gives the length of a body.
pub const LENGTH_SIZE: usize = 4;

/// The size of what comes before a body: the gate of its record, and its length.
pub const FRONT_SIZE: usize = GATE_SIZE + LENGTH_SIZE;

/// The place of the version gate, after the start line and the secret.
pub const VERSION_GATE: u64 = (LINE_SIZE + SECRET_SIZE) as u64;

/// The place of the first record's gate.
pub const FIRST_GATE: u64 = VERSION_GATE + GATE_SIZE as u64;

/// The size of an empty journal: the header and its first gate.
pub const EMPTY_SIZE: usize = FIRST_GATE as usize + GATE_SIZE;

/// The least length of a body.
pub const BODY_LEAST: u32 = 1;

/// The greatest length of a body.
pub const BODY_MOST: u32 = 4096;

/// The room for a body of any length.
pub const BODY_ROOM: usize = BODY_MOST as usize;

/// A body, in room that takes no memory.
pub type Body = ArrayVec<u8, BODY_ROOM>;

// The greatest length of a record with the gate after it: a gate, a length, a body and a gate.
pub(crate) const RECORD_MOST: usize = FRONT_SIZE + BODY_MOST as usize + GATE_SIZE;

// The greatest length of what an append writes after its gate.
pub(crate) const BEHIND_MOST: usize = RECORD_MOST - GATE_SIZE;

// How much of the file is read at a time.
pub(crate) const PIECE: usize = 16384;
