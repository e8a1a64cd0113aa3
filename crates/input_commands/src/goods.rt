// For the commands `weigh` and `winner`: the case of goods in the input, and which players the members in a proposal are.
ghost use Rattle.std.specs.Prelude.{◌≡◌, ◌≤◌, ◌==◌, All, Contains, Err, IfOk, MatchResult, Ok, length};
ghost use Rattle.std.specs.List.{position_or_len};
ghost use Rattle.bid_rules.specs.declared.cases.Case.TheVariants.{Goods};
ghost use Rattle.bid_rules.specs.declared.limits.TheConstants.{ITEM_ROOM};
ghost use Rattle.bid_rules.specs.Facts.{case_of};
ghost use Rattle.bid_rules.specs.Goods.{AreOwners, IsValidGoodsCase, player_count};
ghost use Rattle.split_json.specs.Proposals.{IsReadyGoods};
ghost use Rattle.split_json.specs.Reading.{case_data_of};
ghost use Rattle.input_commands.specs.Players.{player_of, players_of};

use arrayvec::ArrayVec;
use bid_rules::limits::ITEM_ROOM;
use bid_rules::{Case, GoodsCase, Missing, case_law, make_case};
use split_json::CaseInput;

// The case of goods that facts and bids make, or the members who lack a bid.
pub(crate) fn goods_case(input: &CaseInput) -> Result<GoodsCase, Missing>
    requires { IsReadyGoods (case_data_of input.now) }
    ensures case { MatchResult result
        (λ case. case_of input.now.facts input.now.bids.items ≡ Ok (Goods case))
        (λ missing. case_of input.now.facts input.now.bids.items ≡ Err missing) }
    ensures valid { IfOk result IsValidGoodsCase }
{
    case_law();
    match make_case(&input.facts, input.bids.as_slice())? {
        Case::Goods(case) => Ok(case),
        Case::Rent(_) => unreachable!(),
        Case::Fares(_) => unreachable!(),
    }
}

// The place of a number in a list, or how many there are.
fn place_of(numbers: &[u8], number: u8) -> usize
    ensures { result ≡ position_or_len (λ other. other == number) numbers.now }
{
    for (k, other) in numbers.iter().enumerate() {
        if *other == number {
            return k;
        }
    }
    numbers.len()
}

// The player that a member with a bid is.
fn player_of(case: &GoodsCase, member: u8) -> u8
    requires case { IsValidGoodsCase case.now }
    requires bidder { Contains case.now.who.items member }
    ensures player { result ≡ player_of case.now member }
    ensures low { 1 ≤ result }
    ensures high { result ≤ player_count case.now }
{
    place_of(case.who.as_slice(), member) as u8 + 1
}

// The players that members with bids are.
pub(crate) fn players_of(case: &GoodsCase, members: &[u8]) -> ArrayVec<u8, ITEM_ROOM>
    requires case { IsValidGoodsCase case.now }
    requires few { length members.now ≤ ITEM_ROOM }
    requires bidders { All (λ member. Contains case.now.who.items member) members.now }
    ensures players { result.items ≡ players_of case.now members.now }
    ensures owners { AreOwners case.now result.items }
{
    let mut players = ArrayVec::new();
    for member in members {
        players.push(player_of(case, *member));
    }
    players
}
