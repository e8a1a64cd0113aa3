// Fills the table of a case in the order of the sets' numbers, so that each set comes after its subsets.
ghost use Rattle.std.specs.Prelude.{◌≡◌, map, IfOk};
ghost use Rattle.bid_rules.specs.Facts.{IsValidFareCase};
ghost use Rattle.set_costs.specs.Table.{HoldsCosts};

use crate::table::Costs;
use best_laws::coalition_law;
use bid_rules::FareCase;
use bid_rules::limits::RiderList;
use set_costs::{Row, next_row, rows_law};
use split_base::NoMemory;
use std::alloc::Global;

// The rows of all sets of riders, by their numbers, in memory that is taken all at once.
fn rows(alloc: Global, case: &FareCase) -> Result<Vec<Row>, NoMemory>
    requires { IsValidFareCase case.now }
    ensures { IfOk result (λ rows. HoldsCosts case.now (map (λ row. row.items) rows.items)) }
{
    coalition_law();
    rows_law();
    let sets = 1 << case.at.len();
    let Ok(mut rows) = Vec::with_capacity(alloc, sets) else {
        return Err(NoMemory);
    };
    for _ in 0..sets {
        let Ok(()) = rows.push(next_row(case, &rows)) else {
            return Err(NoMemory);
        };
    }
    Ok(rows)
}

// A copy of the case, to be kept beside its costs.
fn copied_case(case: &FareCase) -> FareCase
    requires { IsValidFareCase case.now }
    ensures { result ≡ case.now }
{
    FareCase {
        facts: case.facts.copied(),
        who: RiderList::try_from(case.who.as_slice()).unwrap(),
        at: RiderList::try_from(case.at.as_slice()).unwrap(),
    }
}

/// What each coalition of a valid case costs.
///
/// It takes about `n^2 * 2^n` steps for n riders, and takes memory just once.
pub fn costs(alloc: Global, case: &FareCase) -> Result<Costs, NoMemory>
    requires { IsValidFareCase case.now }
    ensures { IfOk result (λ costs. costs ≡ case.now) }
{
    Ok(Costs {
        case: copied_case(case),
        rows: rows(alloc, case)?,
    })
}
