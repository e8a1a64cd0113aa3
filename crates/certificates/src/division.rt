// The division of a case of any kind.
use nash_search::GoodsDivision;
use rent_maximin::RentDivision;
use shapley_core::FareDivision;

/// The division of a case, by kind.
#[derive(Drop)]
pub enum Division {
    /// The rooms and prices of a rent.
    Rent(RentDivision),
    /// Who has each of the goods.
    Goods(GoodsDivision),
    /// What the riders of a shared fare pay.
    Fares(FareDivision),
}
