// A page of fixed size, into which the text of a reply is written as JSON. It takes no memory.
ghost use Rattle.std.specs.Prelude.{◌≡◌, ◌<◌, ◌∷◌, ◌++◌, [], codes, decimal, cond};
ghost use Rattle.std.specs.Char.{digit_char};
ghost use Rattle.json.specs.Print.{escape, escape_byte, escape_letter, quoted};
ghost use Rattle.serde_json.specs.Data.{boolean};
ghost use Rattle.serde_json.specs.Written.{comma_if, compact_text};
ghost use Rattle.reply_texts.specs.Pages.{Holds, Puts};

use crate::sizes::REPLY_MOST;
use arrayvec::ArrayVec;
use itoa::Buffer;

/// Room for the text of one reply that isn't a publication.
#[derive(Drop)]
pub struct Page {
    /// What is written so far.
    pub bytes: ArrayVec<u8, REPLY_MOST>,
    /// Whether the text was too long: then nothing more is written.
    pub(crate) full: bool,
}

impl Page {
    /// A page with nothing on it.
    pub fn blank() -> Page
        ensures { result.bytes.items ≡ [] }
    {
        Page {
            bytes: ArrayVec::new(),
            full: false,
        }
    }
}

// Clears a page.
pub(crate) fn wipe(page: &mut Page)
    ensures { Holds page.new [] }
{
    page.bytes.clear();
    page.full = false;
}

// A page that is full once stays full, so that a text that doesn't fit is never sent in part.
pub(crate) fn put(page: &mut Page, bytes: &[u8])
    ensures { Puts page.old page.new bytes.now }
{
    if page.full {
        return;
    }
    if page.bytes.try_extend_from_slice(bytes).is_err() {
        page.full = true;
    }
}

// A comma, where something stands before.
pub(crate) fn put_comma(page: &mut Page, later: bool)
    ensures { Puts page.old page.new (comma_if later) }
{
    if later {
        put(page, b",");
    }
}

// In decimal, as JSON has it.
pub(crate) fn put_number(page: &mut Page, number: u64)
    ensures { Puts page.old page.new (decimal number) }
{
    let mut buffer = Buffer::new();
    put(page, buffer.format(number).as_bytes());
}

// The words of JSON for the two truth values.
pub(crate) fn put_flag(page: &mut Page, flag: bool)
    ensures { Puts page.old page.new (compact_text (boolean flag)) }
{
    let text: &'static [u8] = if flag { b"true" } else { b"false" };
    put(page, text);
}

// A text in quotes, with its escapes.
pub(crate) fn put_quoted(page: &mut Page, text: &[u8])
    ensures { Puts page.old page.new (quoted text.now) }
{
    put(page, b"\"");
    put_escaped(page, text);
    put(page, b"\"");
}

// Byte by byte, because quotes, backslashes and control bytes are spelled in another way.
fn put_escaped(page: &mut Page, text: &[u8])
    ensures { Puts page.old page.new (escape text.now) }
{
    for byte in text {
        put_byte(page, *byte);
    }
}

// A byte of a text, or its escape.
#[tactic(auto, unfolding(json::specs::Print::escape_byte))]
fn put_byte(page: &mut Page, byte: u8)
    ensures { Puts page.old page.new (escape_byte byte) }
{
    let letter = escape_letter(byte);
    if letter > 0 {
        put(page, &[b'\\', letter]);
    } else if byte < 0x20 {
        let (high, low) = (hex_digit(byte / 16), hex_digit(byte % 16));
        put(page, &[b'\\', b'u', b'0', b'0', high, low]);
    } else {
        put(page, &[byte]);
    }
}

// The letter of a byte's short escape, or 0 where it has none.
fn escape_letter(byte: u8) -> u8
    ensures { result ≡ escape_letter byte }
{
    match byte {
        b'"' | b'\\' => byte,
        8 => b'b',
        12 => b'f',
        b'\n' => b'n',
        b'\r' => b'r',
        b'\t' => b't',
        _ => 0,
    }
}

// Escapes are spelled with small letters.
fn hex_digit(digit: u8) -> u8
    requires { digit < 16 }
    ensures { result ≡ digit_char digit }
{
    if digit < 10 {
        b'0' + digit
    } else {
        b'a' - 10 + digit
    }
}
