// The searches of goods that are kept, so that a case that comes again need not be searched again.
ghost use Rattle.std.specs.Prelude.{◌≡◌, IfSome};
ghost use Rattle.split_solve.specs.Searches.{IsSearched};

use crate::certificates_kept::KeptCertificate;
use crate::limits::MOST_KEPT_SEARCHES;
use arrayvec::ArrayVec;
use bid_rules::limits::ValueTable;
use bid_rules::{Goods, GoodsCase};
use nash_search::{GoodsDivision, OverLimit};
use std::alloc::Global;
use std::marker::Model;

/// A case of goods, and what its search found. Contracts see the case.
#[derive(Drop)]
struct KeptSearch {
    case: GoodsCase,
    found: Result<GoodsDivision, OverLimit>,
}

impl Model for KeptSearch {
    ghost use Rattle.bid_rules.specs.declared.goods.GoodsCase.{GoodsCase};
    ghost use Rattle.split_solve.specs.Searches.{IsSearched};

    ghost Value = { GoodsCase };

    ghost view = { λ k. k.case };

    ghost invariant = { λ k. IsSearched k.case k.found };
}

impl KeptSearch {
    // What the search of this case found, if it is the case that is kept.
    fn answer(&self, case: &GoodsCase) -> Option<Result<GoodsDivision, OverLimit>>
        ensures { IfSome result (IsSearched case.now) }
    {
        if self.case == *case {
            Some(same_end(&self.found))
        } else {
            None
        }
    }
}

/// What the last searches of goods found, and the last certificates that were written of goods: `MOST_KEPT_SEARCHES` of each at most, and
/// `MOST_KEPT_BYTES` of certificates.
///
/// The key is the whole case, with its points: so what is found for it is its answer wherever the case comes from, and nothing has to be
/// forgotten. Keeping changes how soon an answer comes, and never the answer. If memory is refused, nothing is kept.
#[derive(Drop)]
pub struct KeptSearches {
    searches: Vec<KeptSearch>,
    pub(crate) certificates: Vec<KeptCertificate>,
}

impl KeptSearches {
    /// Nothing is kept yet. This takes no memory.
    pub fn new(alloc: Global) -> Self {
        KeptSearches {
            searches: Vec::new(alloc),
            certificates: Vec::new(alloc),
        }
    }

    // What the search of this case found, if it is kept.
    pub(crate) fn answer(&self, case: &GoodsCase) -> Option<Result<GoodsDivision, OverLimit>>
        ensures { IfSome result (IsSearched case.now) }
    {
        for kept in self.searches.iter() {
            if let Some(found) = kept.answer(case) {
                return Some(found);
            }
        }
        None
    }

    // Keeps what the search of a case found, in place of the oldest if there are `MOST_KEPT_SEARCHES`.
    pub(crate) fn keep(&mut self, case: &GoodsCase, found: &Result<GoodsDivision, OverLimit>)
        requires { IsSearched case.now found.now }
    {
        if self.searches.len() >= MOST_KEPT_SEARCHES {
            self.searches.remove(0);
        }
        let _ = self.searches.push(KeptSearch {
            case: same_case(case),
            found: same_end(found),
        });
    }
}

// A copy of the case.
pub(crate) fn same_case(case: &GoodsCase) -> GoodsCase
    ensures { result ≡ case.now }
{
    GoodsCase {
        facts: Goods {
            members: case.facts.members,
            goods: case.facts.goods,
            limit: case.facts.limit,
        },
        who: ArrayVec::try_from(case.who.as_slice()).unwrap(),
        values: same_table(&case.values),
    }
}

// A copy of the end of a search.
fn same_end(found: &Result<GoodsDivision, OverLimit>) -> Result<GoodsDivision, OverLimit>
    ensures { result ≡ found.now }
{
    match found {
        Ok(division) => Ok(GoodsDivision {
            owners: ArrayVec::try_from(division.owners.as_slice()).unwrap(),
            pair: division.pair,
            steps: division.steps,
        }),
        Err(over) => Err(OverLimit { limit: over.limit }),
    }
}

// A copy of the points, by player.
fn same_table(table: &ValueTable) -> ValueTable
    ensures { result ≡ table.now }
{
    let mut copy = ArrayVec::new();
    for values in table.as_slice() {
        copy.push(ArrayVec::try_from(values.as_slice()).unwrap());
    }
    copy
}
