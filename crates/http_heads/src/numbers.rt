// Reads whole numbers in decimal.
ghost use Rattle.std.specs.Prelude.{◌≡◌, ◌≤◌, ◌^◌, MatchOption, min, All};
ghost use Rattle.std.specs.Char.{IsAsciiDigit};
ghost use Rattle.std.specs.Str.Parse.{digits_value};
ghost use Rattle.http_heads.specs.Numbers.{number_in};

/// The number that the digits write, or `most` if it is greater; `None` if a byte isn't a digit.
/// There may be leading zeros and any number of digits.
#[tactic(auto, using(std::proofs::lemmas::Int::Digits::digits_value_more))]
pub fn capped_number(text: &[u8], most: u64) -> Option<u64>
    requires { most ≤ 2 ^ 32 }
    ensures { MatchOption result (¬ (All IsAsciiDigit text.now)) (λ n.
        All IsAsciiDigit text.now × (n ≡ min (digits_value 10 text.now) most)) }
{
    let mut number = 0u64;
    for byte in text {
        if !byte.is_ascii_digit() {
            return None;
        }
        number = (number * 10 + u64::from(*byte - b'0')).min(most);
    }
    Some(number)
}

/// The same, but `None` if there are no digits. This is how a Content-Length is read.
pub fn whole_number(text: &[u8], most: u64) -> Option<u64>
    requires { most ≤ 2 ^ 32 }
    ensures { result ≡ number_in most text.now }
{
    if text.is_empty() {
        return None;
    }
    match capped_number(text, most) {
        Some(number) => Some(number),
        None => None,
    }
}
