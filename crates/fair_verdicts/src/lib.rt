//! The C functions of the two judges, which work in fixed memory: a static library, from which the module for browsers is made. It is a
//! crate of its own because that module may hold no function that reaches an allocator.
//!
//! Each function takes the bytes of a text and a buffer. It answers the status of the command of its name, and sets `size` to the size of
//! the line that the command writes. If the buffer has room for the whole line, the line is copied to its front; otherwise the buffer is left
//! as it is, and the caller can come again with one of that size. A line never has more than `LINE_ROOM` bytes.
//!
//! To C a slice is a pointer and a count. No pointer may be null, the three pieces of memory may not overlap, and the stack needs 512 kB.
//! No function keeps anything, takes a handle or starts a thread, so several threads may call at once.
#![tactic(auto)]

ghost use Rattle.std.specs.Prelude.{◌≡◌};
ghost use Rattle.cert_checker.specs.Judged.{PrintsBest};
ghost use Rattle.input_commands.specs.Replies.{Replies};
ghost use Rattle.input_commands.specs.declared.command.InputCommand.TheVariants.{Check, CheckWinner};
ghost use Rattle.winner_rules.specs.Judged.{PrintsFair};

use command_results::hand_out_verdict;
use input_commands::{check_bytes, check_winner_bytes, status_law};

/// Judges the text of a certificate, as `fairsplit check` does. Only status 0 shows that the text prints a valid case and its best
/// division.
#[unsafe(no_mangle)]
pub extern "C" fn fair_check(bytes: &[u8], text: &mut [u8], size: &mut usize) -> u8
    ensures replies { Replies Check bytes.now result size.new text.old text.new }
    ensures best { result ≡ 0 → PrintsBest bytes.now }
{
    status_law();
    let verdict = check_bytes(bytes);
    hand_out_verdict(&verdict, text, size)
}

/// Judges the text of adjusted winner, as `fairsplit checkwinner` does. Only status 0 shows that the text prints a fair division.
#[unsafe(no_mangle)]
pub extern "C" fn fair_checkwinner(bytes: &[u8], text: &mut [u8], size: &mut usize) -> u8
    ensures replies { Replies CheckWinner bytes.now result size.new text.old text.new }
    ensures fair { result ≡ 0 → PrintsFair bytes.now }
{
    status_law();
    let verdict = check_winner_bytes(bytes);
    hand_out_verdict(&verdict, text, size)
}
