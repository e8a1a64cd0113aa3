//! The seven rules of a certificate of a rent: judged in fixed memory, and what they show.
//!
//! A yes shows that the printed case is valid and the printed division is `RentBest` for it
//! (`rent_certificate_law`).
#![tactic(auto)]

mod keys;
mod laws;
mod numbers;
mod prices;
mod printed;
mod rules;
mod walks;

pub use laws::rent_certificate_law;
pub use rules::check_rent;
