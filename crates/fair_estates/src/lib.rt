//! The C functions of estates, which work in memory that the caller lends: a static library, from which a module for browsers is made. It is a crate of its own
//! because that module is loaded only where an estate is divided or judged.
//!
//! `fair_estate` divides goods in slices. It takes the numbers of a case, and memory in which the search keeps its state between two slices. If it ends with the
//! best division, the verified judge has said yes to the certificate that it hands out. `fair_estate_check` judges the text of such a certificate.
//!
//! To C, a slice is a pointer and a count. No pointer may be null, no two pieces of memory may overlap, and the stack needs 512 kB. No function keeps anything
//! outside the memory that it is lent, takes a handle or starts a thread.
#![tactic(auto)]

ghost use Rattle.std.specs.Prelude.{◌≡◌};
ghost use Rattle.estate_checker.specs.Judged.{PrintsBestEstate};
ghost use Rattle.fair_estates.specs.Replies.{IsCheckReply, IsEstateReply};

mod cases;
mod limits;
mod lines;
mod verdicts;

use crate::cases::estate_case;
use crate::lines::hand_out;
use crate::verdicts::verdict_on;
use command_results::hand_out_verdict;
use estate_solver::advance;
use number_cases::{give, refuse};

/// Judges the text of an estate's certificate. Only status 0 shows that the text prints a valid case and its best division.
#[unsafe(no_mangle)]
pub extern "C" fn fair_estate_check(bytes: &[u8], text: &mut [u8], size: &mut usize) -> u8
    ensures replies { IsCheckReply bytes.now result size.new text.old text.new }
    ensures best { result ≡ 0 → PrintsBestEstate bytes.now }
{
    let verdict = verdict_on(bytes);
    hand_out_verdict(&verdict, text, size)
}

/// Makes up to `steps` steps of a search for the best division of goods and for its certificate, which takes at most `limit` steps: `who` are the members who have
/// bid, by number from 1 and rising, and `values` the points that they give the goods, member by member. `reached` is 0 for a search that starts, and after each call
/// how many steps the search has made; between two calls, `work` and `text` belong to the search.
#[unsafe(no_mangle)]
pub extern "C" fn fair_estate(
    goods: u32,
    limit: u32,
    steps: u32,
    who: &[u8],
    values: &[u32],
    work: &mut [u8],
    owners: &mut [u8],
    reached: &mut u32,
    text: &mut [u8],
    size: &mut usize,
) -> u8
    ensures { IsEstateReply goods limit who.now values.now result size.new owners.old owners.new
        reached.old reached.new text.old text.new }
{
    let case = match estate_case(goods, limit, who, values) {
        Ok(case) => case,
        Err(name) => return refuse(name, text, size),
    };
    let outcome = advance(case, limit, steps, reached, work, text);
    give(outcome.owners.as_slice(), owners);
    hand_out(outcome.end, limit, text, size)
}
