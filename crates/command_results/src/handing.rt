// Hands out the status and the text of an ending to a caller with a buffer, such as one that is not written in Rattle.
ghost use Rattle.std.specs.Prelude.{◌≡◌, Err, length};
ghost use Rattle.command_results.specs.Endings.{ending_of, verdict_ending};
ghost use Rattle.command_results.specs.Handing.{HandsOut, IsCopied};

use crate::stop::Stop;
use crate::text::Text;

// Copies the words to the front of the buffer if there is room for all of them, and otherwise leaves the buffer as it is. Returns the
// size of the words.
fn copy_words(words: &[u8], buffer: &mut [u8]) -> usize
    ensures { IsCopied words.now result buffer.old buffer.new }
{
    let size = words.len();
    if size <= buffer.len() {
        buffer[..size].copy_from_slice(words);
    }
    size
}

/// Hands out the reason of an ending without a text.
pub fn hand_out_stop(stop: &Stop, buffer: &mut [u8], size: &mut usize) -> u8
    ensures { HandsOut (Err stop.now) result size.new buffer.old buffer.new }
{
    let owed = stop.owed();
    *size = copy_words(&owed.line, buffer);
    owed.status
}

/// Hands out an ending: returns its status, and sets `size` to the size of its text, which is copied to the front of the buffer if there
/// is room for all of it. Otherwise the buffer is left as it is, and the caller can call again with a buffer of that size.
pub fn hand_out(ending: &Result<Text, Stop>, buffer: &mut [u8], size: &mut usize) -> u8
    ensures { HandsOut (ending_of ending.now) result size.new buffer.old buffer.new }
{
    match ending {
        Ok(text) => {
            *size = copy_words(text.as_bytes(), buffer);
            0
        }
        Err(stop) => hand_out_stop(stop, buffer, size),
    }
}

/// The same for the ending of a judge, whose yes is a line. It takes no memory, and the program that calls it needs no allocator.
pub fn hand_out_verdict(verdict: &Result<(), Stop>, buffer: &mut [u8], size: &mut usize) -> u8
    ensures { HandsOut (verdict_ending verdict.now) result size.new buffer.old buffer.new }
{
    match verdict {
        Ok(()) => {
            *size = copy_words(b"yes\n", buffer);
            0
        }
        Err(stop) => hand_out_stop(stop, buffer, size),
    }
}
