// The case and the division that a certificate prints, where the judge says yes to it.
ghost use Rattle.std.specs.Prelude.{◌≡◌, ℕ, List, IfSome};
ghost use Rattle.bid_rules.specs.Goods.{GoodsBest, owners_by_good};
ghost use Rattle.estate_checker.specs.Judged.{AllRulesHold, PrintsBestEstate};
ghost use Rattle.estate_checker.specs.Printed.{printed_case, printed_owners};
ghost use Rattle.estate_checker.specs.Said.{IsSaid};
ghost use Rattle.estate_texts.specs.Given.{GivenLine};
ghost use Rattle.estate_texts.specs.Steps.{view_of_text};

use crate::judging::verdict_on;
use crate::laws::estate_certificate_law;
use crate::printed::{case_of, owners_of};
use arrayvec::ArrayVec;
use bid_rules::GoodsCase;
use bid_rules::limits::ITEM_ROOM;
use estate_texts::{EstateText, read_estate};
use rule_verdicts::Verdict;

/// What a certificate prints: a case, and its best division.
#[derive(Drop)]
pub struct PrintedBest {
    /// The case. It says neither how many members there are nor how many steps the specified search may take.
    pub case: GoodsCase,
    /// The owner of each good, by number: a player, counted from 1.
    pub owners: ArrayVec<u8, ITEM_ROOM>,
}

// What a text that was read prints, if it is a case and a division.
fn printed(text: &EstateText<'_>) -> Option<PrintedBest>
    requires { (given : List GivenLine) × IsSaid text.now given }
    ensures { (given : List GivenLine) → IsSaid text.now given
        → IfSome result (λ best.
        (best.case ≡ printed_case (view_of_text text.now given))
        × (best.owners.items ≡ printed_owners (view_of_text text.now given))) }
{
    let Some(case) = case_of(text) else {
        return None;
    };
    match owners_of(text) {
        Some(owners) => Some(PrintedBest { case, owners }),
        None => None,
    }
}

// The same, if all nine rules hold.
fn kept(text: &EstateText<'_>) -> Option<PrintedBest>
    requires { (given : List GivenLine) × IsSaid text.now given }
    ensures { (given : List GivenLine) → IsSaid text.now given
        → IfSome result (λ best.
        AllRulesHold (view_of_text text.now given)
        × (best.case ≡ printed_case (view_of_text text.now given))
        × (best.owners.items ≡ printed_owners (view_of_text text.now given))) }
{
    match verdict_on(text) {
        Verdict::Yes => printed(text),
        Verdict::No { rule: _ } => None,
    }
}

/// The case and the division that a certificate prints, if the judge says yes to it: then the division is the best one.
pub fn printed_best(text: &[u8]) -> Option<PrintedBest>
    ensures prints { IfSome result (λ _. PrintsBestEstate text.now) }
    ensures best { IfSome result (λ best.
        (answer : List ℕ) × GoodsBest best.case answer
        × (best.owners.items ≡ owners_by_good best.case answer)) }
{
    estate_certificate_law();
    match read_estate(text) {
        Ok(read) => kept(&read),
        Err(_) => None,
    }
}
