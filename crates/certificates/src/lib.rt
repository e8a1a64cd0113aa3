//! The division of a case of any kind, and its canonical certificate, whose lines keep the rules of the checker.
//!
//! The canonical certificate has at most `MOST_BYTES` bytes, the judge says yes to it, and a case has at most one
//! (`certificate_law`). A certificate of goods or fares doesn't say how many members there are, so it prints the
//! case with as many as there may be. Of a rent, each member pays what the cent plan of the members' exact
//! prices says (`rent_pays`).
//!
//! Lines are put into a slice, and what doesn't fit is only counted (`put_rent`, `put_goods` and `put_fares`),
//! so the writer takes no memory and can't fail. `write_certificate` takes as much memory as a text probably
//! needs, and if the text is longer, puts it again into as much memory as was counted.
#![tactic(auto)]

mod division;
mod division_laws;
mod fare_lines;
mod fares;
mod goods;
mod goods_answer;
mod goods_lines;
mod laws;
mod lines;
mod marks;
mod node;
mod payments;
mod rent;
mod rent_lines;
mod room;
mod sets;
mod write;

pub use division::Division;
pub use division_laws::division_law;
pub use fare_lines::fare_lines_law;
pub use fares::put_fares;
pub use goods::put_goods;
pub use goods_lines::goods_lines_law;
pub use laws::certificate_law;
pub use payments::rent_pays;
pub use rent::put_rent;
pub use rent_lines::rent_lines_law;
pub use write::write_certificate;
