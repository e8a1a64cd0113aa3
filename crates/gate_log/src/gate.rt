// Finds out what is at a gate, as far as it was read ahead.
ghost use Rattle.std.specs.Prelude.{◌≡◌};
ghost use Rattle.gate_log.specs.Gate.{Shows};

use crate::limits::{BODY_LEAST, BODY_MOST};

#[derive(Clone, Copy, Debug, Drop)]
pub(crate) enum AtGate {
    // The gate is closed.
    Closed,
    // A whole record with a body of this length, and the gate after it.
    Record { length: usize },
    // The length is out of range.
    OutOfRange,
    // The bytes end before the length, the body or the next gate has ended.
    Short,
}

// Tells a length that no body can have apart from a record that isn't all there yet: the first is damage, and the
// second needs more bytes.
pub(crate) fn look(ahead: &[u8]) -> AtGate
    ensures { Shows ahead.now result }
{
    match ahead {
        [0, ..] => AtGate::Closed,
        [_, a, b, c, d, rest @ ..] => {
            let length = u32::from_le_bytes([*a, *b, *c, *d]);
            if length < BODY_LEAST || length > BODY_MOST {
                AtGate::OutOfRange
            } else if rest.len() <= length as usize {
                AtGate::Short
            } else {
                AtGate::Record {
                    length: length as usize,
                }
            }
        }
        _ => AtGate::Short,
    }
}
