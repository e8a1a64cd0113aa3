// Tests whether two creations, or two bids, are the same in every field.
ghost use Rattle.std.specs.Prelude.{◌≡◌, map};
ghost use Rattle.sealed_core.specs.Host.{creation_view, text};
ghost use Rattle.sealed_core.specs.Sameness.{is_kept, same_bid, same_creation, same_facts, same_texts};

use bid_rules::{Bid, Facts, Fares};
use body_fields::{Creation, Name};

// Fares have a table of costs, which must agree in every entry.
fn same_fares(a: &Fares, b: &Fares) -> bool
    ensures { result ≡ same_facts (Facts.Fares a.now) (Facts.Fares b.now) }
{
    a.members == b.members && a.places == b.places && a.flag == b.flag && a.legs == b.legs
}

// A creation that is sent again counts as the same one only if every fact agrees.
fn same_facts(a: &Facts, b: &Facts) -> bool
    ensures { result ≡ same_facts a.now b.now }
{
    match (a, b) {
        (Facts::Rent(a), Facts::Rent(b)) => a.members == b.members && a.rent == b.rent,
        (Facts::Goods(a), Facts::Goods(b)) => {
            a.members == b.members && a.goods == b.goods && a.limit == b.limit
        }
        (Facts::Fares(a), Facts::Fares(b)) => same_fares(a, b),
        _ => false,
    }
}

// Names are compared byte by byte, as they were sent.
#[tactic(auto, using(crate::proofs::Texts::texts_equal))]
fn same_texts(a: &[Name], b: &[Name]) -> bool
    ensures { result ≡ same_texts (map text a.now) (map text b.now) }
{
    a == b
}

// Whether two creations are equal: all their fields are.
pub(crate) fn same_creation(a: &Creation, b: &Creation) -> bool
    ensures { result ≡ same_creation (creation_view a.now) (creation_view b.now) }
{
    let members = same_texts(a.members.as_slice(), b.members.as_slice());
    let items = same_texts(a.items.as_slice(), b.items.as_slice());
    let facts = same_facts(&a.facts, &b.facts);
    a.title == b.title && members && items && facts && a.deadline == b.deadline && a.tag == b.tag
}

// A bid that is sent again with its turn is answered as before only if it is the same.
fn same_bid(a: &Bid, b: &Bid) -> bool
    ensures { result ≡ same_bid a.now b.now }
{
    match (a, b) {
        (Bid::Values(a), Bid::Values(b)) => a.as_slice() == b.as_slice(),
        (Bid::Place(a), Bid::Place(b)) => *a == *b,
        _ => false,
    }
}

// Whether a bid is kept, and it is this one.
pub(crate) fn is_kept(kept: &Option<Bid>, bid: &Bid) -> bool
    ensures { result ≡ is_kept kept.now bid.now }
{
    match kept {
        Some(kept) => same_bid(kept, bid),
        None => false,
    }
}
