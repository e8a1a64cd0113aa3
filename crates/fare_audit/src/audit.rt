// The audit: how many groups overpay, and the worst of them.
ghost use Rattle.std.specs.Prelude.{◌≡◌, ◌+◌, ◌-◌, ◌*◌, ◌<◌, ◌≤◌, ◌^◌, length, map, All, MatchOption, unsigned_abs};
ghost use Rattle.bid_rules.specs.Facts.{IsValidFareCase};
ghost use Rattle.bid_rules.specs.Orders.{factorial as orders_of};
ghost use Rattle.shapley_core.specs.Division.{IsFareDivision};
ghost use Rattle.split_frac.specs.Frac.{HasValue, fraction_of};
ghost use Rattle.fare_audit.specs.Excesses.{IsFareAudit};
ghost use Rattle.fare_audit.specs.Parts.{IsFirstGreatest, IsSmallPart, count_below, excess_in_parts};

use crate::parts::{excess_of, parts_of};
use best_laws::coalition_law;
use bid_rules::FareCase;
use bid_rules::limits::{MOST_FARE_CENTS, MOST_RIDERS};
use fare_routes::Costs;
use set_costs::{all_riders, factorial};
use shapley_core::FareDivision;
use split_frac::{Frac, make};

/// The group with the greatest excess.
#[derive(Clone, Copy, Debug, PartialEq, Eq)]
pub struct Worst {
    /// The group, as a set of riders: the sum of 2^(i-1) over its riders i.
    pub set: u16,
    /// What its riders pay together, less what a ride of their own would cost, in cents.
    pub excess: Frac,
}

/// What an audit of fares finds.
#[derive(Clone, Copy, Debug, PartialEq, Eq)]
pub struct FareAudit {
    /// How many groups pay more than a ride of their own would cost.
    pub groups: u32,
    /// The group that overpays most, or among equals the one with the lowest number; `None` exactly when no group overpays.
    pub worst: Option<Worst>,
}

/// What has been found about some groups, in parts.
#[derive(Drop)]
struct Tally {
    /// How many overpay.
    groups: u32,
    /// The first group with the greatest excess, or 0 if none overpays.
    set: u16,
    /// The greatest excess, or 0.
    most: i128,
}

// What is found about all groups, in parts.
fn tally_of(costs: &Costs, parts: &[i128], denominator: u64) -> Tally
    requires small { All IsSmallPart parts.now }
    requires count { length parts.now ≡ length costs.now.at.items }
    requires riders { length parts.now ≤ MOST_RIDERS }
    requires few { denominator ≤ orders_of MOST_RIDERS }
    ensures groups { result.groups
        ≡ count_below (excess_in_parts costs.now parts.now denominator) (2 ^ length parts.now) }
    ensures greatest { IsFirstGreatest (excess_in_parts costs.now parts.now denominator)
        (2 ^ length parts.now) result.set result.most }
    ensures size { unsigned_abs result.most
        ≤ MOST_FARE_CENTS * (MOST_RIDERS + 1) * orders_of MOST_RIDERS * (MOST_RIDERS + 1) }
{
    let mut groups = 0;
    let mut worst = 0;
    let mut most = 0;
    for set in 1..all_riders(parts.len() as u8) + 1 {
        let excess = excess_of(costs, parts, denominator, set);
        if excess > 0 {
            groups += 1;
        }
        if excess > most {
            worst = set;
            most = excess;
        }
    }
    Tally {
        groups,
        set: worst,
        most,
    }
}

// The worst group, whose excess is given in parts.
fn worst_of(set: u16, most: i128, denominator: u64) -> Option<Worst>
    requires some { 0 < denominator }
    requires few { denominator ≤ orders_of MOST_RIDERS }
    requires size { unsigned_abs most
        ≤ MOST_FARE_CENTS * (MOST_RIDERS + 1) * orders_of MOST_RIDERS * (MOST_RIDERS + 1) }
    ensures { MatchOption result (set ≡ 0) (λ worst.
        (0 < set) × (worst.set ≡ set) × HasValue worst.excess most denominator) }
{
    if set == 0 {
        return None;
    }
    Some(Worst {
        set,
        excess: make(most, denominator),
    })
}

/// Whether groups of riders pay more than a ride of their own would cost: for each set of riders except the empty one, the sum of their
/// fares less the cost of the set (the excess of a coalition, Davis and Maschler 1965).
///
/// The division is the solver's for the case. It takes no memory.
pub fn audit_fares(case: &FareCase, division: &FareDivision) -> FareAudit
    requires case { IsValidFareCase case.now }
    requires division { IsFareDivision case.now division.now }
    ensures { IsFareAudit case.now (map fraction_of division.now.fares.items) result }
{
    coalition_law();
    let denominator = factorial(case.at.len() as u8);
    let parts = parts_of(division.fares.as_slice(), denominator);
    let found = tally_of(&division.costs, parts.as_slice(), denominator);
    FareAudit {
        groups: found.groups,
        worst: worst_of(found.set, found.most, denominator),
    }
}
