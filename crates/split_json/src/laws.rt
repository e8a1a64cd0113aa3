// Laws about the definitions of reading, which hold for all bodies. Each is the contract of a function that does nothing.
ghost use Rattle.std.specs.Prelude.{◌≡◌, ◌≤◌, ◌↔◌, ℕ, List, Ok, Some};
ghost use Rattle.serde_json.specs.Data.{Data};
ghost use Rattle.arrayvec.specs.ArrayVec.{ArrayVec};
ghost use Rattle.bid_rules.specs.Facts.{IsCheckedBid, IsCheckedFacts};
ghost use Rattle.split_json.specs.Rules.{bid_in, each, array_in, number_in, whole_number};
ghost use Rattle.split_json.specs.Reading.{CaseData, HeadData, IsReady, IsReadyHead, case_in, free_fares, goods_facts, head_of_object, rent_facts};

use bid_rules::limits::{
    FEWEST_MEMBERS, MOST_FARE_CENTS, MOST_GOODS, MOST_MEMBERS, MOST_PLACES, MOST_RENT, MOST_RIDERS,
    USUAL_STEPS,
};
use bid_rules::{Bid, Facts};

/// A case that is read from any body has facts and bids without fault.
pub fn case_in_law()
    ensures { (body : List ℕ) (case : CaseData) → case_in body ≡ Ok case → IsReady case }
{}

/// A head that is read from any JSON object has facts without fault, and names for all members and items.
pub fn head_law()
    ensures { (body : Data) (head : HeadData) → head_of_object body ≡ Ok head → IsReadyHead head }
{}

/// The form of a bid refuses none that the rules allow. Under checked facts a whole number is a bid exactly when it is a checked place, and a list of whole numbers below 2^32 exactly when they are checked values or points. The facts have to
/// be checked, since the form only has room for what checked facts can need: a bid with more entries or a greater place is refused before the rule is asked.
pub fn field_rules_law()
    ensures places { (facts : Facts) (value : Data) (place : ℕ) → IsCheckedFacts facts
        → whole_number value ≡ Some place → (bid_in facts value ≡ Some (Bid.Place place))
        ↔ IsCheckedBid facts (Bid.Place place) }
    ensures values { (facts : Facts) (value : Data) (list : List Data) (values : ArrayVec ℕ)
        → IsCheckedFacts facts → array_in value ≡ Some list
        → each number_in list ≡ Some values.items → (bid_in facts value ≡ Some (Bid.Values values))
        ↔ IsCheckedBid facts (Bid.Values values) }
{}

/// Why a fault of facts that have only been read in part is that of the field read last: the values that stand in for the fields to come are good. So a rent and goods are refused after the members, and goods after the goods, exactly when
/// their number is out of its limits, and fares before the legs exactly when a count or the flag fall is.
pub fn field_fault_law()
    ensures rent { (members : ℕ) → IsCheckedFacts (rent_facts members MOST_RENT)
        ↔ (FEWEST_MEMBERS ≤ members) × (members ≤ MOST_MEMBERS) }
    ensures goods { (members goods : ℕ) → IsCheckedFacts (goods_facts members goods USUAL_STEPS)
        ↔ (FEWEST_MEMBERS ≤ members) × (members ≤ MOST_MEMBERS) × (1 ≤ goods)
        × (goods ≤ MOST_GOODS) }
    ensures fares { (members places flag : ℕ) → IsCheckedFacts (free_fares members places flag)
        ↔ (FEWEST_MEMBERS ≤ members) × (members ≤ MOST_RIDERS) × (1 ≤ places)
        × (places ≤ MOST_PLACES) × (flag ≤ MOST_FARE_CENTS) }
{}
