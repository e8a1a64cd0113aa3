// Tests of exact fractions: sums, differences, floors, order and text.
ghost use Rattle.std.specs.Prelude.{◌<◌, ◌≤◌, unsigned_abs};

use split_frac::{Frac, add, compare, floor, gcd, make, rem, sub, sum_law, text, value_law};
use std::alloc::Global;
use std::cmp::Ordering;
use std::process::Abort;

// A fraction of small numbers.
fn small(num: i8, den: u8) -> Frac
    requires { 0 < den }
    ensures num { unsigned_abs result.num ≤ 128 }
    ensures den { result.den ≤ 255 }
{
    value_law();
    make(num as i128, den as u64)
}

// The sum and the difference of two such fractions.
fn sum_and_difference(a: Frac, b: Frac) -> (Frac, Frac)
    requires a_num { unsigned_abs a.num ≤ 128 }
    requires a_den { a.den ≤ 255 }
    requires b_num { unsigned_abs b.num ≤ 128 }
    requires b_den { b.den ≤ 255 }
{
    sum_law();
    (add(a, b), sub(a, b))
}

// Fractions are compared as text, which has just one spelling for each value.
fn assert_text(rt: &impl Abort, alloc: Global, frac: &Frac, expected: &str) {
    let printed = text(alloc, frac).expect(rt, "no memory");
    assert_eq!(rt; printed.as_str(), expected);
}

// Rows with signs, common factors and equal values, which are where rounding would show.
#[test]
fn fractions_are_exact(rt: HostRuntime) {
    let alloc = rt.alloc();

    // Two fractions; the first, their sum and difference, and what is left above the floor; that floor
    // and the order.
    let rows: [((i8, u8), (i8, u8), [&str; 4], i128, Ordering); 5] = [
        (
            (6, 4),
            (0, 5),
            ["3/2", "3/2", "3/2", "1/2"],
            1,
            Ordering::Greater,
        ),
        (
            (-6, 4),
            (1, 2),
            ["-3/2", "-1", "-2", "1/2"],
            -2,
            Ordering::Less,
        ),
        (
            (-5, 1),
            (1, 3),
            ["-5", "-14/3", "-16/3", "0"],
            -5,
            Ordering::Less,
        ),
        (
            (1, 6),
            (2, 6),
            ["1/6", "1/2", "-1/6", "1/6"],
            0,
            Ordering::Less,
        ),
        ((2, 4), (1, 2), ["1/2", "1", "0", "1/2"], 0, Ordering::Equal),
    ];
    for ((num, den), (other_num, other_den), [shown, total, less, rest], whole, order) in rows {
        assert!(rt; den > 0 && other_den > 0);
        let (a, b) = (small(num, den), small(other_num, other_den));
        let (sum, difference) = sum_and_difference(a, b);
        assert_text(&rt, alloc, &a, shown);
        assert_text(&rt, alloc, &sum, total);
        assert_text(&rt, alloc, &difference, less);
        assert_text(&rt, alloc, &rem(&a), rest);
        assert_eq!(rt; floor(&a), whole);
        assert_eq!(rt; compare(&a, &b), order);
    }
    let greatest = make(1_000_000_000_000_000_000_000_000, 1);
    assert_text(&rt, alloc, &greatest, "1000000000000000000000000");
    assert_text(&rt, alloc, &Frac::default(), "0");
    assert_eq!(rt; gcd(84, 36), 12);
    assert_eq!(rt; gcd(0, 7), 7);
}
