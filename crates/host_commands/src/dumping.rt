// Dumps a host's file.
ghost use Rattle.std.specs.Prelude.{◌≤◌, ◌↔◌};
ghost use Rattle.command_results.specs.Endings.{ending_of};
ghost use Rattle.host_commands.specs.Files.{Dumps};

use crate::opening::{open_file, stop_of};
use command_results::{Stop, Text};
use split_base::Disk;
use split_reports::dump_rows;
use std::alloc::Global;

/// Opens the file of a host and gives the rows of its instances. A file of version 1 is raised to version 2.
///
/// - `BadJournal` is returned exactly when the file isn't a journal, with the place of its first fault.
/// - `StoreFault` is returned only if the disk's count of faults has risen, by one.
///
/// There are no other stops. Only the byte of the version is ever written, and none before `BadJournal`.
pub fn dump<D: Disk>(alloc: Global, disk: &mut D) -> Result<Text, Stop>
    ensures dumps { Dumps D.Disk disk.old disk.new (ending_of result) }
    ensures count { D.faults disk.old ≤ D.faults disk.new }
    ensures honest { D.is_honest disk.old ↔ D.is_honest disk.new }
{
    match open_file(alloc, disk) {
        Err(fault) => Err(stop_of(fault)),
        Ok(serving) => Ok(Text::Kept(dump_rows(alloc, &serving.host)?)),
    }
}
