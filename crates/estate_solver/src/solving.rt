// Drives a search, and judges what it ends with.
ghost use Rattle.std.specs.Prelude.{◌≡◌, ℕ, IfSome, List};
ghost use Rattle.bid_rules.specs.Goods.{GoodsBest, IsValidGoodsCase, owners_by_good};
ghost use Rattle.estate_search.specs.Endings.{EndsSearch, IsDivision, estate_of};
ghost use Rattle.estate_solver.specs.Outcomes.{EndsSlice, IsCompared};

use crate::outcome::{Outcome, SliceEnd};
use bid_rules::GoodsCase;
use estate_checker::{PrintedBest, printed_best};
use estate_search::{Ending, Found, Owners, Search, Space};

// What a search has come to, and its case.
#[derive(Drop)]
struct Walked {
    case: GoodsCase,
    reached: u32,
    // None while it goes on.
    ending: Option<Ending>,
    owners: Owners,
}

// A search that starts, or one that goes on.
fn started<'a>(case: GoodsCase, limit: u32, reached: u32, space: Space<'a>) -> Search<'a>
    requires { IsValidGoodsCase case }
    ensures { result ≡ estate_of case }
{
    if reached == 0 {
        Search::start(case, limit, space)
    } else {
        Search::resume(case, limit, space)
    }
}

// Makes steps of a search, and leaves its state in the memory.
fn walk(search: Search<'_>, steps: u32) -> Walked
    ensures case { result.case ≡ search.entry }
    ensures ending { IfSome result.ending (EndsSearch result.case) }
    ensures owners { IsDivision result.case result.owners.items }
{
    let mut search = search;
    let is_over = search.advance(steps);
    let reached = search.steps().max(1);
    let owners = search.owners();
    let ending = if is_over { Some(search.end()) } else { None };
    let case = search.pause();
    Walked {
        case,
        reached,
        ending,
        owners,
    }
}

// The division that the certificate prints, if it is one of this case, and otherwise the one that was found.
fn compared(case: &GoodsCase, best: PrintedBest, size: usize, owners: Owners) -> Outcome
    requires best { (answer : List ℕ) × GoodsBest best.case answer
        × (best.owners.items ≡ owners_by_good best.case answer) }
    requires owners { IsDivision case.now owners.items }
    ensures { IsCompared case.now size result.end result.owners.items }
{
    if best.case == *case {
        Outcome {
            end: SliceEnd::Best { size },
            owners: best.owners,
        }
    } else {
        Outcome {
            end: SliceEnd::NotShown,
            owners,
        }
    }
}

// The division that a certificate shows, or the one that was found, if it shows none.
fn judged(case: &GoodsCase, found: Found, text: &[u8]) -> Outcome
    requires { IsDivision case.now found.owners.items }
    ensures { EndsSlice case.now result.end result.owners.items text.now }
{
    let Found {
        owners,
        steps: _,
        size,
    } = found;
    if size > text.len() {
        return Outcome {
            end: SliceEnd::NotShown,
            owners,
        };
    }
    match printed_best(&text[..size]) {
        Some(best) => compared(case, best, size, owners),
        None => Outcome {
            end: SliceEnd::NotShown,
            owners,
        },
    }
}

// What a search has come to, with the text that it may have written.
fn outcome(walked: Walked, text: &[u8]) -> Outcome
    requires ending { IfSome walked.ending (EndsSearch walked.case) }
    requires owners { IsDivision walked.case walked.owners.items }
    ensures { EndsSlice walked.case result.end result.owners.items text.now }
{
    let Walked {
        case,
        reached: _,
        ending,
        owners,
    } = walked;
    match ending {
        None => Outcome {
            end: SliceEnd::GoesOn,
            owners,
        },
        Some(Ending::Best(found)) => judged(&case, found, text),
        Some(Ending::OverLimit(owners)) => Outcome {
            end: SliceEnd::OverLimit,
            owners,
        },
        Some(Ending::TooLong(owners)) => Outcome {
            end: SliceEnd::TooLong,
            owners,
        },
    }
}

/// Makes so many steps of a search of at most `limit` steps, 1 to `MOST_ESTATE_STEPS`, for the best division of a case and for its certificate. The case's own limit
/// is that of the specified search, and does not matter here.
///
/// `reached` is 0 for a search that starts, and after each call how many steps the search has made. To go on, call again with the same case, limit, `reached`
/// and memory: the state of the search stands in `work`, and a certificate in `text`. Where the memory was changed meanwhile, or belongs to another search, the
/// division is no better than the best that was found, and no certificate says otherwise.
pub fn advance(
    case: GoodsCase,
    limit: u32,
    steps: u32,
    reached: &mut u32,
    work: &mut [u8],
    text: &mut [u8],
) -> Outcome
    requires { IsValidGoodsCase case }
    ensures { EndsSlice (estate_of case) result.end result.owners.items text.new }
{
    let space = Space {
        work,
        text: &mut *text,
    };
    let walked = walk(started(case, limit, *reached, space), steps);
    *reached = walked.reached;
    outcome(walked, text)
}
