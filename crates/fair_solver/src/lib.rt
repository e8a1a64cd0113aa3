//! The C functions that solve cases of numbers in fixed memory: a static library, from which the module for browsers is made. It is a crate of
//! its own because that module may hold no function that reaches an allocator, and reading JSON takes one.
//!
//! Each function takes the numbers of a case and a buffer. If they are a valid case, and the step limit of goods suffices, the status is 0,
//! and `size` is set to the size of the case's canonical certificate. It stands at the front of the buffer if there is room for all of it;
//! otherwise the front may have been written, and the caller can call again with a buffer of that size. Otherwise the status and the line are
//! those of the command line: 3 and the field that is refused, or 1 and the step limit.
//!
//! What each person pays in whole cents, which no certificate says, is handed out as numbers: `fair_rent_cents` by member and
//! `fair_fares_cents` by rider. Then `size` is how many amounts there are, and the text is left as it was.
//!
//! To C, a slice is a pointer and a count. No pointer may be null, and no two pieces of memory may overlap. No function keeps anything, takes
//! a handle or starts a thread.
#![tactic(auto)]

ghost use Rattle.std.specs.Prelude.{◌≡◌};
ghost use Rattle.fair_solver.specs.Numbers.{IsFareNumbersReply, IsOwnersReply, IsRentNumbersReply};
ghost use Rattle.fair_solver.specs.Plans.{IsFarePlanReply, IsRentPlanReply};
ghost use Rattle.fair_solver.specs.Replies.{IsFareReply, IsGoodsReply, IsRentReply};

mod dividing;
mod numbers;
mod plans;

use crate::dividing::divide_fare;
use crate::numbers::{fare_numbers, rent_numbers};
use crate::plans::{copy_amounts, fare_plan, rent_plan};
use certificates::{certificate_law, put_goods, put_rent};
use nash_search::search_alone;
use number_cases::{fare_case, give, goods_case, refuse, refuse_limit, rent_case};
use rent_maximin::solve_rent;

/// The version of the library: 10000 for each first number, 100 for each second and 1 for each third.
#[unsafe(no_mangle)]
pub extern "C" fn fair_version() -> u32
    ensures { result ≡ 100 }
{
    100
}

/// Divides a rent: `values` are what the members would pay for the rooms, member by member, in cents.
#[unsafe(no_mangle)]
pub extern "C" fn fair_rent(
    members: u32,
    rent: u32,
    values: &[u32],
    text: &mut [u8],
    size: &mut usize,
) -> u8
    ensures { IsRentReply members rent values.now result size.new text.old text.new }
{
    certificate_law();
    match rent_case(members, rent, values) {
        Ok(case) => {
            let division = solve_rent(&case);
            *size = put_rent(text, &case, &division);
            0
        }
        Err(name) => refuse(name, text, size),
    }
}

/// Divides goods: `who` are the members who have bid, by number from 1 and rising, and `values` the points that they give the goods, member by
/// member.
#[unsafe(no_mangle)]
pub extern "C" fn fair_goods(
    goods: u32,
    limit: u32,
    who: &[u8],
    values: &[u32],
    text: &mut [u8],
    size: &mut usize,
) -> u8
    ensures { IsGoodsReply goods limit who.now values.now result size.new text.old text.new }
{
    certificate_law();
    let case = match goods_case(goods, limit, who, values) {
        Ok(case) => case,
        Err(name) => return refuse(name, text, size),
    };
    match search_alone(&case) {
        Ok(division) => {
            *size = put_goods(text, &case, &division);
            0
        }
        Err(over) => refuse_limit(over.limit, text, size),
    }
}

/// Divides the fare of a taxi: `legs` are a row from the origin and one from each place, in cents, `who` the members who ride, by number from
/// 1 and rising, and `at` the places, from 1, where they get off.
#[unsafe(no_mangle)]
pub extern "C" fn fair_fares(
    places: u32,
    flag: u32,
    legs: &[u32],
    who: &[u8],
    at: &[u8],
    text: &mut [u8],
    size: &mut usize,
) -> u8
    ensures { IsFareReply places flag legs.now who.now at.now result size.new text.old text.new }
{
    certificate_law();
    match fare_case(places, flag, legs, who, at) {
        Ok(case) => {
            *size = divide_fare(text, &case);
            0
        }
        Err(name) => refuse(name, text, size),
    }
}

/// What each member pays in whole cents of the rent that `fair_rent` divides: the cent plan of the exact prices, which sums to the rent.
#[unsafe(no_mangle)]
pub extern "C" fn fair_rent_cents(
    members: u32,
    rent: u32,
    values: &[u32],
    pays: &mut [i64],
    text: &mut [u8],
    size: &mut usize,
) -> u8
    ensures { IsRentPlanReply members rent values.now result size.new pays.old pays.new text.old
        text.new }
{
    match rent_case(members, rent, values) {
        Ok(case) => {
            let plan = rent_plan(&case);
            *size = copy_amounts(plan.as_slice(), pays);
            0
        }
        Err(name) => refuse(name, text, size),
    }
}

/// What each rider pays in whole cents of the fare that `fair_fares` divides: the cent plan of the exact fares, which sums to the cost of all
/// riders.
#[unsafe(no_mangle)]
pub extern "C" fn fair_fares_cents(
    places: u32,
    flag: u32,
    legs: &[u32],
    who: &[u8],
    at: &[u8],
    pays: &mut [i64],
    text: &mut [u8],
    size: &mut usize,
) -> u8
    ensures { IsFarePlanReply places flag legs.now who.now at.now result size.new pays.old pays.new
        text.old text.new }
{
    match fare_case(places, flag, legs, who, at) {
        Ok(case) => {
            let plan = fare_plan(&case);
            *size = copy_amounts(plan.as_slice(), pays);
            0
        }
        Err(name) => refuse(name, text, size),
    }
}

/// Divides a rent in numbers: `rooms` by member, from 1, the exact prices by room as `numerators` and `denominators`, and what each member `pays`
/// in whole cents.
#[unsafe(no_mangle)]
pub extern "C" fn fair_rent_rooms(
    members: u32,
    rent: u32,
    values: &[u32],
    rooms: &mut [u8],
    numerators: &mut [i64],
    denominators: &mut [u64],
    pays: &mut [i64],
    text: &mut [u8],
    size: &mut usize,
) -> u8
    ensures { IsRentNumbersReply members rent values.now result size.new rooms.old rooms.new
        numerators.old numerators.new denominators.old denominators.new pays.old pays.new text.old
        text.new }
{
    match rent_case(members, rent, values) {
        Ok(case) => {
            let division = rent_numbers(&case);
            give(division.own.as_slice(), rooms);
            give(division.exact.numerators.as_slice(), numerators);
            give(division.exact.denominators.as_slice(), denominators);
            give(division.pays.as_slice(), pays);
            *size = division.pays.len();
            0
        }
        Err(name) => refuse(name, text, size),
    }
}

/// Divides goods in numbers: `owners` has for each good the player who gets it, from 1, in the order of `who`.
#[unsafe(no_mangle)]
pub extern "C" fn fair_goods_owners(
    goods: u32,
    limit: u32,
    who: &[u8],
    values: &[u32],
    owners: &mut [u8],
    text: &mut [u8],
    size: &mut usize,
) -> u8
    ensures { IsOwnersReply goods limit who.now values.now result size.new owners.old owners.new
        text.old text.new }
{
    let case = match goods_case(goods, limit, who, values) {
        Ok(case) => case,
        Err(name) => return refuse(name, text, size),
    };
    match search_alone(&case) {
        Ok(division) => {
            give(division.owners.as_slice(), owners);
            *size = division.owners.len();
            0
        }
        Err(over) => refuse_limit(over.limit, text, size),
    }
}

/// Shares a fare in numbers: the `route` as riders, from 1, in the order in which they get off, the exact fares by rider as `numerators` and
/// `denominators`, and what each rider `pays` in whole cents.
#[unsafe(no_mangle)]
pub extern "C" fn fair_fares_route(
    places: u32,
    flag: u32,
    legs: &[u32],
    who: &[u8],
    at: &[u8],
    route: &mut [u8],
    numerators: &mut [i64],
    denominators: &mut [u64],
    pays: &mut [i64],
    text: &mut [u8],
    size: &mut usize,
) -> u8
    ensures { IsFareNumbersReply places flag legs.now who.now at.now result size.new route.old
        route.new numerators.old numerators.new denominators.old denominators.new pays.old pays.new
        text.old text.new }
{
    match fare_case(places, flag, legs, who, at) {
        Ok(case) => {
            let division = fare_numbers(&case);
            give(division.own.as_slice(), route);
            give(division.exact.numerators.as_slice(), numerators);
            give(division.exact.denominators.as_slice(), denominators);
            give(division.pays.as_slice(), pays);
            *size = division.pays.len();
            0
        }
        Err(name) => refuse(name, text, size),
    }
}
