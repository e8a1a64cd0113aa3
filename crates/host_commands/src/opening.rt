// Opens the file of a host for `dump` and `serve`, and says how a command ends whose file could not be made or opened.
ghost use Rattle.std.specs.Prelude.{◌≡◌};
ghost use Rattle.host_commands.specs.Files.{Opens, stop_of};

use command_results::Stop;
use gate_log::LogFault;
use host_journal::{Serving, open};
use split_base::Disk;
use std::alloc::Global;

// Opens the file of a host.
pub(crate) fn open_file<D: Disk>(alloc: Global, disk: &mut D) -> Result<Serving, LogFault>
    ensures { Opens D.Disk disk.old disk.new result }
{
    open(alloc, disk)
}

// Why a command that could not make or open its file ends.
pub(crate) fn stop_of(fault: LogFault) -> Stop
    ensures { result ≡ stop_of fault }
{
    match fault {
        LogFault::Disk => Stop::StoreFault,
        LogFault::NotALog { place } => Stop::BadJournal { place },
        LogFault::NoMemory => Stop::NoMemory,
    }
}
