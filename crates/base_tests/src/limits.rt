// What the limits of the outside owe to those of the crates above: raise one there, and this crate is refused until the one here follows.

use adapters::limits::LONGEST_PIECE;
use cert_reader::limits::MOST_BYTES;
use client_port::limits::{MOST_KEPT_OF_ALL, MOST_KEPT_OF_ONE};
use gate_log::{BODY_ROOM, EMPTY_SIZE, GATE_SIZE, LENGTH_SIZE};
use http_heads::MAX_HEAD;

// A file takes in one piece the longest that a journal writes: the length, the body and the gate of a record, or an empty journal.
const _: () = prove!(LENGTH_SIZE + BODY_ROOM + GATE_SIZE <= LONGEST_PIECE);

const _: () = prove!(EMPTY_SIZE <= LONGEST_PIECE);

// A port keeps for one client the longest reply, which is a certificate with a head, and of all clients at least so much.
const _: () = prove!(MOST_BYTES + MAX_HEAD <= MOST_KEPT_OF_ONE);

const _: () = prove!(MOST_KEPT_OF_ONE <= MOST_KEPT_OF_ALL);
