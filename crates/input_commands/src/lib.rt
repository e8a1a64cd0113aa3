//! The commands that read an input: what each answers to its bytes, and how it ends. The number of workers never changes it.
//!
//! The bytes of the input fix the ending (`input_answer_law`). A yes shows the best division, or a
//! fair one (`yes_law`), and what `solve` writes calls for a yes (`solved_law`). An input that is
//! too long is refused after one byte more than it may have, and a failed read is not tried again.
//! On bytes that a caller has in memory the same commands end without threads (`bytes_ending`), the
//! judges without an allocator (`check_bytes`), and status 0 shows what their yes shows (`status_law`).
#![tactic(auto)]

mod bytes;
mod command;
mod dividing;
mod ending;
mod goods;
mod judging;
mod laws;
mod limits;
mod pairing;
mod weighing;

pub use bytes::{bytes_ending, check_bytes, check_winner_bytes};
pub use command::InputCommand;
pub use ending::input_ending;
pub use laws::{input_answer_law, solved_law, status_law, yes_law};
pub use limits::LONGEST_INPUT;
