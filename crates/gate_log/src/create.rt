// Makes an empty journal.
ghost use Rattle.std.specs.Prelude.{◌≡◌, ◌≢◌, ◌<◌, ◌≤◌, ◌↔◌, ◌+◌, ◌++◌, [], ◌∷◌, List, ℕ, length, OnOk, IsErr, Err};
ghost use Rattle.split_base.specs.Faults.{HasCause, HasRisen};
ghost use Rattle.split_base.specs.Disk.{Only, Rests};
ghost use Rattle.gate_log.specs.Calls.{faults_after_call};
ghost use Rattle.gate_log.specs.Records.{Stands, header};
ghost use Rattle.gate_log.specs.declared.limits.TheConstants.{EMPTY_SIZE};

use crate::LogFault;
use crate::header::header_of;
use crate::limits::SECRET_SIZE;
use split_base::{Disk, write_synced};

/// Makes an empty journal of version 2 with this secret, in an empty file. It takes no memory.
///
/// - `Disk` is returned only if the disk's count of faults has risen, by one.
/// - `NotALog` is returned exactly when the file isn't empty, with place 0.
///
/// No byte of a file that isn't empty changes, whatever the answer. Nothing is promised about what a crash leaves of an empty file before the call
/// has answered Ok.
pub fn create_log<D: Disk>(disk: &mut D, secret: &[u8; SECRET_SIZE]) -> Result<(), LogFault>
    ensures count { D.faults disk.old ≤ D.faults disk.new }
    ensures disk { result ≡ Err LogFault.Disk → HasRisen (D.faults disk.old) (D.faults disk.new) }
    ensures faults { D.faults disk.new ≡ faults_after_call (D.faults disk.old) result }
    ensures no_memory { result ≢ Err LogFault.NoMemory }
    ensures place { (place : ℕ) → result ≡ Err (LogFault.NotALog place) → place ≡ 0 }
    ensures filled { D.tells disk.old → (place : ℕ) → result ≡ Err (LogFault.NotALog place)
        → 0 < length (D.seen disk.old) }
    ensures kept { D.is_honest disk.old → (place : ℕ) → result ≡ Err (LogFault.NotALog place)
        → Rests D.seen D.images D.moment D.left_since disk.old disk.new }

    // If the file isn't empty, no byte of it changes, whatever the answer.
    ensures still { D.tells disk.old → 0 < length (D.seen disk.old)
        → D.tells disk.new × (D.seen disk.new ≡ D.seen disk.old) }
    ensures untouched { D.is_honest disk.old → 0 < length (D.seen disk.old)
        → Rests D.seen D.images D.moment D.left_since disk.old disk.new }
    ensures no_write { D.is_honest disk.old → 0 < length (D.seen disk.old)
        → D.moment disk.new ≡ D.moment disk.old }
    ensures empty { D.tells disk.old → OnOk result (length (D.seen disk.old) ≡ 0) }
    ensures honest { D.is_honest disk.old ↔ D.is_honest disk.new }

    // After Ok there is one image: 50 bytes, of version 2, with the secret and no bodies.
    ensures bytes { D.is_honest disk.old
        → OnOk result (D.seen disk.new ≡ header 1 secret.now ++ 0 ∷ []) }
    ensures stands { D.is_honest disk.old → OnOk result (Stands 2 secret.now [] (D.seen disk.new)) }
    ensures size { D.is_honest disk.old → OnOk result (length (D.seen disk.new) ≡ EMPTY_SIZE) }
    ensures tick { D.is_honest disk.old → OnOk result (D.moment disk.new ≡ D.moment disk.old + 2) }
    ensures one { D.is_honest disk.old → OnOk result (Only (D.seen disk.new) (D.images disk.new)) }
{
    if disk.size()? != 0 {
        return Err(LogFault::NotALog { place: 0 });
    }
    write_synced(disk, 0, &header_of(secret))?;
    Ok(())
}
