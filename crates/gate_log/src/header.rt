// Makes and reads the header of a journal: the start line, the secret, the version gate, and the
// gate of the first record.
ghost use Rattle.std.specs.Prelude.{◌≡◌, ◌++◌, ◌∷◌, [], ℕ, List, IfOk, IfErr, IfSome, IfNone, take, length, ◌≤◌};
ghost use Rattle.gate_log.specs.Records.{header, start_line};
ghost use Rattle.gate_log.specs.Faults.{IsHeaderFault, IsLineFault};
ghost use Rattle.gate_log.specs.Log.{IsHeaded, secret_in};
ghost use Rattle.gate_log.specs.declared.limits.TheConstants.{LINE_SIZE, EMPTY_SIZE};

use crate::limits::{EMPTY_SIZE, LINE_SIZE, SECRET_SIZE, VERSION_GATE};
use arrayvec::ArrayVec;

const START_LINE: &[u8; LINE_SIZE] = b"FAIRSPLIT LOG 1\n";

// The header of version 2 with its closed first gate.
pub(crate) fn header_of(secret: &[u8; SECRET_SIZE]) -> ArrayVec<u8, EMPTY_SIZE>
    ensures { result.items ≡ header 1 secret.now ++ 0 ∷ [] }
{
    let mut bytes = ArrayVec::new();
    let _ = bytes.try_extend_from_slice(START_LINE);
    let _ = bytes.try_extend_from_slice(secret);
    bytes.push(1);
    bytes.push(0);
    bytes
}

// The first place at which the start line differs or ends.
fn line_fault(bytes: &[u8]) -> Option<usize>
    ensures fault { IfSome result (λ place. IsLineFault place bytes.now) }
    ensures line { IfNone result (take LINE_SIZE bytes.now ≡ start_line) }
{
    let mut place = 0;
    while place < LINE_SIZE {
        if place >= bytes.len() || bytes[place] != START_LINE[place] {
            return Some(place);
        }
        place += 1;
    }
    None
}

// The version of the header that bytes begin with, or the place of its first fault.
pub(crate) fn read_version(bytes: &[u8]) -> Result<u8, u64>
    ensures ok { IfOk result (λ version. IsHeaded bytes.now version) }
    ensures fault { IfErr result (λ place. IsHeaderFault place bytes.now) }
{
    if let Some(place) = line_fault(bytes) {
        return Err(place as u64);
    }
    if bytes.len() < EMPTY_SIZE {
        return Err(bytes.len() as u64);
    }
    let version_gate = bytes[VERSION_GATE as usize];
    Ok(if version_gate == 0 { 1 } else { 2 })
}

// The secret in the header that bytes begin with.
pub(crate) fn read_secret(bytes: &[u8]) -> [u8; SECRET_SIZE]
    requires { EMPTY_SIZE ≤ length bytes.now }
    ensures { result ≡ secret_in bytes.now }
{
    let mut secret = [0; SECRET_SIZE];
    secret.copy_from_slice(&bytes[LINE_SIZE..LINE_SIZE + SECRET_SIZE]);
    secret
}
