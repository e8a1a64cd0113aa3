// The dump of a host.
ghost use Rattle.std.specs.Prelude.{◌≡◌, IfOk};
ghost use Rattle.split_reports.specs.DumpRows.{dump_text};

use crate::dump_output::{header_written, write_row};
use sealed_core::Host;
use split_base::NoMemory;
use std::alloc::Global;

/// The rows of a host's instances as comma-separated values (RFC 4180, with LF): first a row of the fields' names, then one for each
/// instance, in order of id.
///
/// A row has the id, the kind, the title, the number of members, the deadline in seconds since 1970, whether the instance is closed, as
/// `yes` or `no`, and the number of members who have a bid.
pub fn dump_rows(alloc: Global, host: &Host) -> Result<Vec<u8>, NoMemory>
    ensures { IfOk result (λ text. text.items ≡ dump_text host.now.content) }
{
    let mut writer = header_written(alloc)?;
    let instances = host.instances();
    let mut id = 1;
    for instance in instances {
        write_row(&mut writer, id, instance)?;
        id += 1;
    }
    match writer.into_inner() {
        Ok(text) => Ok(text),
        Err(_) => Err(NoMemory),
    }
}
