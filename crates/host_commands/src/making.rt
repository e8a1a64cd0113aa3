// Makes the file of a host for the command `init`.
ghost use Rattle.std.specs.Prelude.{◌≤◌, ◌↔◌};
ghost use Rattle.command_results.specs.Endings.{ending_of};
ghost use Rattle.host_commands.specs.Files.{Makes};

use crate::opening::stop_of;
use command_results::{Stop, Text};
use gate_log::{SECRET_SIZE, create_log};
use split_base::Disk;

/// Makes the file of a host, with this secret and no events, in an empty file. It writes nothing out, and takes no memory.
///
/// - `BadJournal`, with place 0, is returned exactly when the file isn't empty.
/// - `StoreFault` is returned only if the disk's count of faults has risen, by one.
///
/// There are no other stops. No byte of a file that isn't empty changes, whatever the answer. Nothing is promised about what a crash leaves of
/// an empty file before the answer is Ok.
pub fn make<D: Disk>(disk: &mut D, secret: &[u8; SECRET_SIZE]) -> Result<Text, Stop>
    ensures makes { Makes D.Disk disk.old disk.new secret.now (ending_of result) }
    ensures count { D.faults disk.old ≤ D.faults disk.new }
    ensures honest { D.is_honest disk.old ↔ D.is_honest disk.new }
{
    match create_log(disk, secret) {
        Ok(()) => Ok(Text::nothing()),
        Err(fault) => Err(stop_of(fault)),
    }
}
