// The starts of a set of riders, and whether its line says what it must.
ghost use Rattle.std.specs.Prelude.{◌≡◌, ◌+◌, ◌^◌, ◌<◌, ◌≤◌, ◌↔◌, pos, length, map, IsTrue, slice_index};
ghost use Rattle.cert_reader.specs.Sets.{starts};

use arrayvec::ArrayVec;
use bid_rules::limits::{MOST_RIDERS, RIDER_ROOM};

/// Room for the origin and each rider.
pub const START_ROOM: usize = RIDER_ROOM + 1;

/// The starts of a set of riders: the origin, which is 0, and the riders of 1 to `count` who are not in it, in rising order.
pub fn starts_of(count: u8, set: u16) -> ArrayVec<u8, START_ROOM>
    requires few { count ≤ MOST_RIDERS }
    ensures { result.items ≡ starts count set }
{
    let mut starts = ArrayVec::new();
    starts.push(0);
    for bit in 0..count {
        if (set >> bit) % 2 != 1 {
            starts.push(bit + 1);
        }
    }
    starts
}

// Whether a line says what the row of its set has at each of its starts.
pub(crate) fn is_line(row: &[u32], count: u8, set: u16, line: &[i128]) -> bool
    requires few { count ≤ MOST_RIDERS }
    requires row { length row.now ≡ count + 1 }
    ensures { IsTrue result
        ↔ line.now ≡ map (λ at. pos (slice_index row.now at)) (starts count set) }
{
    let starts = starts_of(count, set);
    if line.len() != starts.len() {
        return false;
    }
    for k in 0..line.len() {
        if line[k] != i128::from(row[usize::from(starts[k])]) {
            return false;
        }
    }
    true
}
