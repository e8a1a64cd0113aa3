// Binary logarithms in whole numbers, good to a few units of 2^-24. Only the choice of weights rests on them, and nothing is judged by them.
ghost use Rattle.std.specs.Prelude.{◌≡◌, ◌+◌, ◌<◌, ◌≤◌, ◌^◌};

// How many binary places a logarithm has.
const LOG_PLACES: u32 = 24;
/// More than the error of a sum of 50 logarithms.
pub(crate) const NEAR: i64 = 512;

const CELLS: usize = 1024;

const CELL_ROOM: usize = CELLS + 1;
// The number that stands for 1 while a logarithm is computed, and for 2.
const ONE: u64 = 1 << 60;

const TWO: u64 = 1 << 61;

/// The logarithms of 1 to 2, in steps of 1 in 1024.
#[derive(Drop)]
pub(crate) struct RoughLogs {
    cells: [u32; CELL_ROOM],
}

// Squaring doubles a logarithm, so its next digit appears each time.
fn log_of_cell(cell: usize) -> u32
    requires { cell ≤ CELLS }
{
    let mut number = ((CELLS + cell) as u64) << 50;
    let mut digits: u32 = 0;
    for _ in 0..LOG_PLACES {
        if number >= TWO {
            number >>= 1;
            digits |= 1;
        }
        number = square(number);
        digits <<= 1;
    }
    if number >= TWO { digits | 1 } else { digits }
}

// The square of a number below 4, by the number that stands for 1.
fn square(number: u64) -> u64 {
    let wide = u128::from(number);
    ((wide * wide) / u128::from(ONE)).min(u128::from(u64::MAX)) as u64
}

impl RoughLogs {
    pub(crate) fn new() -> RoughLogs {
        let mut cells = [0; CELL_ROOM];
        for cell in 0..CELL_ROOM {
            cells[cell] = log_of_cell(cell);
        }
        RoughLogs { cells }
    }

    /// The logarithm of a number, in units of 2^-24. That of 0 counts as that of 1.
    pub(crate) fn of(&self, number: u64) -> i64 {
        let number = number.max(1);
        let whole = number.ilog2();
        let fraction = (number << (63 - whole)) << 1;
        let cell = (fraction / (1 << 54)) as usize;
        let within = (fraction / (1 << 30)) % (1 << 24);
        let low = self.cells[cell];
        let step = self.cells[cell + 1].saturating_sub(low);
        let part = (u64::from(step) * within) / (1 << 24);
        (u64::from(whole) * (1 << 24) + u64::from(low) + part) as i64
    }
}
