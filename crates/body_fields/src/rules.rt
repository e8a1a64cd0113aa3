// The rules that a reader of bodies and the host share.
ghost use Rattle.std.specs.Prelude.{◌≡◌, ◌≤◌, ◌&&◌, nat_le};
ghost use Rattle.std.specs.List.{list_all};
ghost use Rattle.bid_rules.specs.Facts.{IsCheckedFacts, member_count};
ghost use Rattle.bid_rules.specs.declared.limits.TheConstants.{MEMBER_ROOM};
ghost use Rattle.body_fields.specs.Rules.{allowed_bid, is_name, is_plain, is_tag, is_tag_byte};

use crate::limits::{LONGEST_TAG, SHORTEST_TAG};
use bid_rules::limits::LONGEST_NAME;
use bid_rules::{Bid, Facts, check_bid};

// Whether the byte is not an ASCII control character.
fn is_plain(byte: u8) -> bool
    ensures { result ≡ is_plain byte }
{
    byte >= 32 && byte != 127
}

// Names are shown in lists and letters, so no byte of one may control a terminal or end a line.
fn has_plain_bytes(text: &str) -> bool
    ensures { result ≡ list_all is_plain text.now }
{
    text.as_bytes().iter().all(|byte| is_plain(*byte))
}

/// Whether the text is a name: 1 to 40 bytes without ASCII control characters.
pub fn is_name(text: &str) -> bool
    ensures { result ≡ is_name text.now }
{
    let has_length = !text.is_empty() && text.len() <= LONGEST_NAME;
    has_length && has_plain_bytes(text)
}

// Whether the byte is an ASCII digit.
fn is_digit(byte: u8) -> bool
    ensures { result ≡ nat_le 48 byte && nat_le byte 57 }
{
    48 <= byte && byte <= 57
}

// Whether the byte is a lower-case ASCII letter.
fn is_lower_case(byte: u8) -> bool
    ensures { result ≡ nat_le 97 byte && nat_le byte 122 }
{
    97 <= byte && byte <= 122
}

// Whether the byte may be in a tag: lower-case letters, digits and hyphens are spelled the same
// everywhere.
fn is_tag_byte(byte: u8) -> bool
    ensures { result ≡ is_tag_byte byte }
{
    is_digit(byte) || is_lower_case(byte) || byte == b'-'
}

// Whether a text could be a tag, apart from its length.
fn has_tag_bytes(text: &str) -> bool
    ensures { result ≡ list_all is_tag_byte text.now }
{
    text.as_bytes().iter().all(|byte| is_tag_byte(*byte))
}

/// Whether the text is a tag: 16 to 64 digits, lower-case letters and hyphens.
pub fn is_tag(text: &str) -> bool
    ensures { result ≡ is_tag text.now }
{
    let has_length = text.len() >= SHORTEST_TAG && text.len() <= LONGEST_TAG;
    has_length && has_tag_bytes(text)
}

/// How many members the facts name, at most 12 if they are checked.
pub fn member_count(facts: &Facts) -> usize
    ensures count { result ≡ member_count facts.now }
    ensures few { IsCheckedFacts facts.now → result ≤ MEMBER_ROOM }
{
    match facts {
        Facts::Rent(rent) => usize::from(rent.members),
        Facts::Goods(goods) => usize::from(goods.members),
        Facts::Fares(fares) => usize::from(fares.members),
    }
}

/// The bid, if the facts allow it.
#[tactic(auto, unfolding(crate::specs::Rules::allowed_bid))]
pub fn allowed_bid(facts: &Facts, bid: Bid) -> Option<Bid>
    requires { IsCheckedFacts facts.now }
    ensures { result ≡ allowed_bid facts.now bid }
{
    if check_bid(facts, &bid).is_ok() {
        Some(bid)
    } else {
        None
    }
}
