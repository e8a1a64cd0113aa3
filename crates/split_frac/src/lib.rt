//! Exact fractions in lowest terms: value, sum, difference, order, floor and text; and how lines of numbers and names are written.
//!
//! Each result has exactly the value of the sum, the difference or the remainder, within the ranges of the limits. Fractions with
//! the same value are equal (`value_law`), and their order is that of the values (`order_law`).
#![tactic(auto)]

mod arithmetic;
mod frac;
mod laws;
pub mod limits;
mod line;
mod named;
mod numbers;
mod printing;
mod text_laws;

pub use arithmetic::{add, compare, floor, gcd, make, rem, sub};
pub use frac::Frac;
pub use laws::{floor_law, order_law, parts_law, quotient_law, sum_law, value_law};
pub use line::{push_line, push_numbers};
pub use named::Named;
pub use numbers::{Number, Numbers};
pub use printing::text;
pub use text_laws::number_law;
