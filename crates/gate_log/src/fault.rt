// The reasons why a call on a journal refuses.
ghost use Rattle.std.specs.Prelude.{◌≡◌};

use split_base::{Failed, NoMemory};

/// The reasons why a call on a journal refuses.
#[derive(Clone, Copy, Debug, PartialEq, Eq)]
pub enum LogFault {
    /// A call of the disk failed. The log isn't used again after it; the file is reopened.
    Disk,
    /// The file has its first fault at this place, in bytes from 0.
    NotALog { place: u64 },
    /// There was no memory.
    NoMemory,
}

impl From<Failed> for LogFault {
    ghost use Rattle.std.specs.Prelude.{◌≡◌};
    ghost use Rattle.gate_log.specs.declared.fault.LogFault.TheVariants.{Disk};

    ghost from_gives = { λ _ e. e ≡ Disk };

    fn from(_: Failed) -> Self {
        LogFault::Disk
    }
}

impl From<NoMemory> for LogFault {
    ghost use Rattle.std.specs.Prelude.{◌≡◌};
    ghost use Rattle.gate_log.specs.declared.fault.LogFault.TheVariants.{NoMemory};

    ghost from_gives = { λ _ e. e ≡ NoMemory };

    fn from(_: NoMemory) -> Self {
        LogFault::NoMemory
    }
}
