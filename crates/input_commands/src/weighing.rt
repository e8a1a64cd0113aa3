// The command that weighs a proposed division of goods.
ghost use Rattle.std.specs.Prelude.{◌≡◌, IfOk, Ok, length};
ghost use Rattle.std.specs.Option.{option_map};
ghost use Rattle.bid_rules.specs.declared.cases.Case.TheVariants.{Goods};
ghost use Rattle.bid_rules.specs.Facts.{case_of};
ghost use Rattle.bid_rules.specs.Goods.{AreOwners, in_search_order};
ghost use Rattle.command_results.specs.Endings.{ending_of};
ghost use Rattle.goods_audit.specs.Domination.{IsBetterDivision};
ghost use Rattle.goods_audit.specs.Texts.{IsAuditText};
ghost use Rattle.split_reports.specs.Names.{names_of};
ghost use Rattle.split_json.specs.Proposals.{IsReadyProposal, proposal_in};
ghost use Rattle.split_json.specs.Reading.{IsReady, case_data_of};
ghost use Rattle.input_commands.specs.Answers.{OfBody, OfOwners, OfProposal};
ghost use Rattle.input_commands.specs.Steps.{UpToMemory};

use crate::goods::{goods_case, players_of};
use arrayvec::ArrayVec;
use bid_rules::limits::ITEM_ROOM;
use bid_rules::{GoodsCase, case_law};
use command_results::{Stop, Text};
use goods_audit::{audit_text, dominating};
use nash_bounds::owners_by_good_law;
use split_base::NoMemory;
use split_json::{CaseInput, read_proposal};
use std::alloc::Global;

// The audit of the proposed division that the bytes hold.
pub(crate) fn weigh(alloc: Global, bytes: &[u8]) -> Result<Text, Stop>
    ensures { UpToMemory (OfBody proposal_in OfProposal bytes.now) (ending_of result) }
{
    match read_proposal(alloc, bytes)? {
        Ok(proposal) => weigh_proposal(alloc, &proposal.0, proposal.1.as_slice()),
        Err(fault) => Err(Stop::BadCase { fault }),
    }
}

// The audit of a proposal: facts and bids, and by good the number of the member who is to own it. There is a case, since an owner has bid.
fn weigh_proposal(alloc: Global, input: &CaseInput, members: &[u8]) -> Result<Text, Stop>
    requires { IsReadyProposal (case_data_of input.now) members.now }
    ensures { UpToMemory (OfProposal (case_data_of input.now, members.now)) (ending_of result) }
{
    match goods_case(input) {
        Ok(case) => {
            let owners = players_of(&case, members);
            weigh_owners(alloc, input, &case, owners.as_slice())
        }
        Err(_) => unreachable!(),
    }
}

// The audit of a division of a case, with the least one that dominates it.
fn weigh_owners(
    alloc: Global,
    input: &CaseInput,
    case: &GoodsCase,
    owners: &[u8],
) -> Result<Text, Stop>
    requires input { IsReady (case_data_of input.now) }
    requires case { case_of input.now.facts input.now.bids.items ≡ Ok (Goods case.now) }
    requires each { length owners.now ≡ case.now.facts.goods }
    requires owners { AreOwners case.now owners.now }
    ensures { UpToMemory (OfOwners (case_data_of input.now) case.now owners.now)
        (ending_of result) }
{
    case_law();
    match dominating(case, owners) {
        Ok(better) => {
            let text = audit_beside(alloc, input, case, owners, &better)?;
            Ok(Text::Kept(text))
        }
        Err(over) => Err(Stop::OverLimit { limit: over.limit }),
    }
}

// The audit of a division beside the least one that dominates it, if there is one.
fn audit_beside(
    alloc: Global,
    input: &CaseInput,
    case: &GoodsCase,
    owners: &[u8],
    better: &Option<ArrayVec<u8, ITEM_ROOM>>,
) -> Result<Vec<u8>, NoMemory>
    requires input { IsReady (case_data_of input.now) }
    requires case { case_of input.now.facts input.now.bids.items ≡ Ok (Goods case.now) }
    requires each { length owners.now ≡ case.now.facts.goods }
    requires owners { AreOwners case.now owners.now }
    requires better { IsBetterDivision case.now (in_search_order case.now owners.now) better.now }
    ensures { IfOk result (λ text.
        IsAuditText (names_of (case_data_of input.now)) case.now owners.now
        (option_map (λ others. others.items) better.now) text.items) }
{
    owners_by_good_law();
    match better {
        Some(others) => audit_text(alloc, input, case, owners, Some(others.as_slice())),
        None => audit_text(alloc, input, case, owners, None),
    }
}
