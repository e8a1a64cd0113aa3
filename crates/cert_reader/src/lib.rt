//! The text of certificates and of adjusted winner, as it is read: what it says, and the first broken
//! line of other bytes.
//!
//! `next_piece` reads from any source in fixed memory. It answers `NotText` exactly when the bytes
//! aren't a text, with the first broken line, and `TooLong` after one byte more than a text may
//! have. A text has one meaning (`text_law`, `pair_law`).
#![tactic(auto)]

mod building;
mod certificate;
mod ends;
mod forms;
mod kinds;
mod laws;
pub mod limits;
mod line;
pub mod marks;
mod number;
mod order;
mod pair;
mod pair_building;
mod pair_reading;
mod pieces;
pub mod places;
mod read;
mod rows;
mod step;
mod stream;
mod table;
mod text_lines;
mod tree;
mod tree_line;

pub use building::rent_text;
pub use certificate::{Certificate, FaresText, GoodsText, RentText};
pub use ends::{ReadEnd, TextEnd, read_answer};
pub use forms::{Counts, LineForm, Word};
pub use kinds::Kind;
pub use laws::{numbers_law, pair_law, text_law};
pub use line::{LineNumbers, behind, push_numbers};
pub use number::front_len;
pub use order::{set_count, start_count};
pub use pair::PairText;
pub use pair_reading::read_pair;
pub use pieces::{Part, Piece, Pieces};
pub use read::read_certificate;
pub use rows::{copy_of, number_at, row_at, rows_of, whole_row};
pub use table::Table;
pub use tree::Tree;
