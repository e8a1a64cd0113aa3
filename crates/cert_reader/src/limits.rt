// The limits of certificate texts and of the text of a pair. The limits of members, riders and places are in `bid_rules`.

use crate::places::{FARES_END, FARES_LEGS, FARES_SETS, PAIR_END};
use bid_rules::limits::{MOST_GOODS, MOST_PLACES, MOST_RIDERS};
use split_frac::limits::MOST_DENOMINATOR;

/// The most bytes of a certificate text.
pub const MOST_BYTES: usize = 4_000_000;
/// The most digits that a number, or the numerator of a fraction, can have. A sign is not a digit.
pub const MOST_DIGITS: usize = 25;
/// The greatest denominator of a printed fraction.
pub const MOST_PRINTED_DENOMINATOR: u64 = 4_294_967_295;
/// The most numbers of a line.
pub const MOST_NUMBERS: usize = 24;
/// The most bytes of a line of numbers, without its LF: a word of at most 14 bytes, and as many numbers as a line may have, each with a space, a sign, its digits, a
/// slash and a denominator of at most 10 digits. The proof that no line of a text is longer fails if this is too small.
pub const LONGEST_LINE: usize = 14 + MOST_NUMBERS * (1 + 1 + MOST_DIGITS + 1 + 10);
/// How many bytes are taken from a source at a time, at most.
pub(crate) const PIECE_BYTES: usize = 4096;
/// The most lines of a text, which a certificate of fares has: its fixed lines, one for each place, and one for each set of riders except the empty one.
pub(crate) const MOST_LINES: usize = FARES_LEGS
    + 1
    + MOST_PLACES as usize
    + FARES_SETS
    + (1 << MOST_RIDERS)
    - 1
    + FARES_END
    + 1;
/// How many kinds of certificates there are.
pub(crate) const KINDS: u8 = 3;
/// The most possibilities that a line leaves open: as many as there are counts of goods.
pub(crate) const MOST_CHOICES: u8 = MOST_GOODS;
/// The most bytes of a text without the marks of a tree: the greatest number of lines, each as long as a line can be, with its LF.
pub const MOST_BESIDE_MARKS: usize = (LONGEST_LINE + 1) * MOST_LINES;
/// How many lines the text of a pair has.
pub(crate) const PAIR_LINES: usize = PAIR_END + 1;
/// How many lines of the text of a pair come before `end`.
pub(crate) const PAIR_LINE_ROOM: usize = PAIR_END;

// What the other limits demand of these: each fraction can be printed, with a denominator of at most 10 digits; a line has room for a number for each good, and for
// the number of a set with its costs, of which there is at most one more than there are riders; and a text without a tree fits.
const _: () = prove!(MOST_DENOMINATOR <= MOST_PRINTED_DENOMINATOR);

const _: () = prove!(MOST_PRINTED_DENOMINATOR < 10_000_000_000);

const _: () = prove!(MOST_GOODS as usize <= MOST_NUMBERS);

const _: () = prove!(MOST_RIDERS as usize + 2 <= MOST_NUMBERS);

const _: () = prove!(MOST_BESIDE_MARKS <= MOST_BYTES);
