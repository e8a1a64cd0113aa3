// Turns the caller's numbers into a case, or names the field that is refused.
ghost use Rattle.std.specs.Prelude.{◌≡◌, MatchResult};
ghost use Rattle.number_cases.specs.Cases.{goods_in};
ghost use Rattle.fair_estates.specs.Cases.{AreEstate, IsEstateField};

use bid_rules::GoodsCase;
use bid_rules::limits::MOST_GOODS;
use body_fields::FieldName;
use estate_checker::limits::MOST_ESTATE_STEPS;
use number_cases::goods_with;

// The valid case of goods that the numbers are, or the first field that breaks its rule.
pub(crate) fn estate_case(
    goods: u32,
    limit: u32,
    who: &[u8],
    values: &[u32],
) -> Result<GoodsCase, FieldName>
    ensures { MatchResult result
        (λ case.
        AreEstate goods limit who.now values.now × (case ≡ goods_in goods 1 who.now values.now))
        (λ field. (AreEstate goods limit who.now values.now → ⊥) × IsEstateField goods limit field) }
{
    if goods < 1 || goods > u32::from(MOST_GOODS) {
        return Err(FieldName::Goods);
    }
    if limit < 1 || limit > MOST_ESTATE_STEPS {
        return Err(FieldName::Limit);
    }
    match goods_with(goods as u8, 1, who, values) {
        Some(case) => Ok(case),
        None => Err(FieldName::Bids),
    }
}
