//! Cases from a caller's numbers, for the C functions that take them: the case that the numbers are, or the field that is refused; and how numbers and refusals
//! are handed out. A static library can't stand on another one, so what several of them need is a crate of its own.
#![tactic(auto)]

mod cases;
mod giving;
mod refusing;
mod rows;

pub use cases::{fare_case, goods_case, goods_with, rent_case};
pub use giving::give;
pub use refusing::{refuse, refuse_limit};
pub use rows::list_of;
