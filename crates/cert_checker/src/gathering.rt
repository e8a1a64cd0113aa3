// Keeps the lines that the judge takes until their part of the certificate is complete.
ghost use Rattle.std.specs.Prelude.{◌≡◌, ◌<◌, ◌++◌, ◌∷◌, []};
ghost use Rattle.arrayvec.specs.ArrayVec.{array_vec_len};

use arrayvec::ArrayVec;
use cert_reader::{LineNumbers, copy_of};

// Keeps a copy of a line after those that are already kept, if there is
// room.
pub(crate) fn gather<const ROOM: usize>(
    lines: &mut ArrayVec<LineNumbers, ROOM>,
    numbers: &LineNumbers,
)
    requires { array_vec_len lines.old < ROOM }
    ensures { lines.new.items ≡ lines.old.items ++ numbers.now ∷ [] }
{
    lines.push(copy_of(numbers));
}
