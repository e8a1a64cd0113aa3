//! The C functions of the commands that take memory: `solve`, `report`, `weigh` and `winner`, as a static library. It is a crate of its own
//! because the judges, which are in `fair_verdicts`, must reach no allocator. The shared library is linked from both.
//!
//! Each function takes the bytes of an input and a buffer. It answers the status of the command of its name, and sets `size` to the size of
//! the text that the command writes. If the buffer has room for the whole text, the text is copied to its front; otherwise the buffer is left
//! as it is, and the caller can come again with one of that size.
//!
//! To C a slice is a pointer and a count. No pointer may be null, the three pieces of memory may not overlap, and the stack needs 512 kB.
//! No function keeps anything, takes a handle or starts a thread, so several threads may call at once. What a call takes from the heap it
//! gives back before it returns.
#![tactic(auto)]

ghost use Rattle.input_commands.specs.Replies.{Replies};
ghost use Rattle.input_commands.specs.declared.command.InputCommand.TheVariants.{Report, Solve, Weigh, Winner};

use command_results::hand_out;
use input_commands::{InputCommand, bytes_ending};
use search_workers::Workers;
use std::alloc::Global;

/// Writes the certificate of the best division of the case that the bytes hold as JSON, as `fairsplit solve 1` does.
#[unsafe(no_mangle)]
pub extern "C" fn fair_solve(alloc: Global, bytes: &[u8], text: &mut [u8], size: &mut usize) -> u8
    ensures { Replies (Solve 1) bytes.now result size.new text.old text.new }
{
    let ending = bytes_ending(
        alloc,
        InputCommand::Solve {
            workers: Workers::one(),
        },
        bytes,
    );
    hand_out(&ending, text, size)
}

/// Writes what the best division of the case means for each member, as `fairsplit report 1` does.
#[unsafe(no_mangle)]
pub extern "C" fn fair_report(alloc: Global, bytes: &[u8], text: &mut [u8], size: &mut usize) -> u8
    ensures { Replies (Report 1) bytes.now result size.new text.old text.new }
{
    let ending = bytes_ending(
        alloc,
        InputCommand::Report {
            workers: Workers::one(),
        },
        bytes,
    );
    hand_out(&ending, text, size)
}

/// Writes the audit of a proposed division of goods, as `fairsplit weigh` does.
#[unsafe(no_mangle)]
pub extern "C" fn fair_weigh(alloc: Global, bytes: &[u8], text: &mut [u8], size: &mut usize) -> u8
    ensures { Replies Weigh bytes.now result size.new text.old text.new }
{
    let ending = bytes_ending(alloc, InputCommand::Weigh, bytes);
    hand_out(&ending, text, size)
}

/// Writes the division of goods between two players by adjusted winner, as `fairsplit winner` does.
#[unsafe(no_mangle)]
pub extern "C" fn fair_winner(alloc: Global, bytes: &[u8], text: &mut [u8], size: &mut usize) -> u8
    ensures { Replies Winner bytes.now result size.new text.old text.new }
{
    let ending = bytes_ending(alloc, InputCommand::Winner, bytes);
    hand_out(&ending, text, size)
}
