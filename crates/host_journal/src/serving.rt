// A host and its journal.
ghost use Rattle.std.specs.Prelude.{◌≡◌, IsNone, IsTrue};
ghost use Rattle.sealed_core.specs.Host.{HasRoom};

use gate_log::Log;
use sealed_core::{Event, Host};

/// A host and its journal. If an append has failed the host waits: whether its event is kept is
/// settled by opening the file again.
///
/// All its memory was taken at the start: the host has room for all the instances that may come, and so has the host into which the file
/// is read again.
#[derive(Drop)]
pub struct Serving {
    /// The host of the kept events.
    pub host: Host,
    /// The journal's log. While the host waits it isn't used.
    pub log: Log,
    /// The event whose append has failed, or none if the host is ready. Then the log is at its
    /// end, in version 2.
    pub waiting: Option<Event>,
    /// Into this host the file is read again. What it holds is nothing to others.
    pub(crate) again: Host,
    ghost room: { HasRoom host },
    ghost room_again: { HasRoom again },
    ghost ready: { IsNone waiting → IsTrue log.at_end × (log.version ≡ 2) },
}
