// What single words of a command line say.
ghost use Rattle.std.specs.Prelude.{◌≡◌, ◌≤◌, MatchOption, Ok};
ghost use Rattle.split_top.specs.Words.{IsKey, IsNoKey, IsNoNumber, IsNoSecret, IsNumber, IsSecret, is_key_digit};

use crate::limits::KEY_DIGITS;
use gate_log::SECRET_SIZE;
use hex::FromHex;
use itoa::Buffer;

// The number, in this range, that a word says in plain decimal.
pub(crate) fn number_in(word: &str, least: u64, most: u64) -> Option<u64>
    ensures { MatchOption result (IsNoNumber least most word.now) (IsNumber least most word.now) }
{
    let number = word.parse::<u64>().ok()?;
    let mut buffer = Buffer::new();
    if number < least || most < number || buffer.format(number) != word {
        return None;
    }
    Some(number)
}

// The secret whose digits, of either letter case, a word has.
pub(crate) fn secret_in(word: &str) -> Option<[u8; SECRET_SIZE]>
    ensures { MatchOption result (IsNoSecret word.now) (λ secret. IsSecret word.now secret) }
{
    <[u8; SECRET_SIZE] as FromHex>::from_hex(word).ok()
}

// Whether a byte is a digit of a key.
fn is_key_digit(byte: u8) -> bool
    ensures { result ≡ is_key_digit byte }
{
    matches!(byte, b'0'..=b'9' | b'a'..=b'f')
}

// The key that a word is.
pub(crate) fn key_in(word: &str) -> Option<[u8; KEY_DIGITS]>
    ensures { MatchOption result (IsNoKey word.now) (λ key. IsKey word.now key) }
{
    let digits = word.as_bytes();
    if digits.len() != KEY_DIGITS || !digits.iter().all(|digit| is_key_digit(*digit)) {
        return None;
    }
    let mut key = [0; KEY_DIGITS];
    key.copy_from_slice(digits);
    Some(key)
}
