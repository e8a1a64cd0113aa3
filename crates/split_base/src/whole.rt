// Reads any source to its end, and writes whole pieces to any sink.
ghost use Rattle.std.specs.Prelude.{◌≡◌, ◌<◌, ◌≤◌, ◌+◌, ℕ, List, length, take, drop, IfOk, IfSome, OnErr, IsErrOf, Some};
ghost use Rattle.std.specs.Io.KnownBytes.{Appends, Consumes, IsAtEnd};
ghost use Rattle.split_base.specs.Faults.{HasCause, HasRisen, IsCounted};
ghost use Rattle.split_base.specs.Streams.{EndsOnce};
ghost use Rattle.split_base.specs.Whole.{faults_after_whole};

use crate::{Failed, Sink, Source};
use std::alloc::Global;

/// Why reading to the end stopped before it.
#[derive(Clone, Copy, Debug, PartialEq, Eq)]
pub enum ReadStop {
    /// A read failed.
    Fault,
    /// The source has more bytes than the most that were asked for.
    TooLong,
    /// There was no memory for the bytes.
    NoMemory,
}

/// Reads to the end, and gives all the bytes, at most `most` of them. Once a read has met the end it
/// does not read again.
///
/// - `Fault` is returned only if the source's count of faults has risen. A failed read ends the
///   reading and is not tried again, so the count has then risen by one; with any other answer it
///   has not risen.
/// - `TooLong` is returned exactly when there are more than `most` bytes. In that case `most + 1` of
///   them have been read.
///
/// In each of these cases the bytes read so far, at most `most + 1`, are lost, and the source goes
/// on after them.
pub fn read_all<S: Source>(alloc: Global, source: &mut S, most: usize) -> Result<Vec<u8>, ReadStop>
    ensures short { IfOk result (λ bytes. length bytes.items ≤ most) }
    ensures bytes { IfOk result (λ bytes.
        Consumes (S.left source.old) (S.left source.new) bytes.items) }
    ensures end { IfOk result (λ _. IsAtEnd (S.left source.new)) }
    ensures empty { EndsOnce (S.empty_reads source.old) (S.empty_reads source.new) result }
    ensures taken { (taken : List ℕ) × (length taken ≤ most + 1)
        × Consumes (S.left source.old) (S.left source.new) taken }
    ensures one_more { IsErrOf result ReadStop.TooLong
        → (taken : List ℕ) × (length taken ≡ most + 1)
        × Consumes (S.left source.old) (S.left source.new) taken }
    ensures too_long { IsErrOf result ReadStop.TooLong
        → IfSome (S.left source.old) (λ bytes.
        (most < length bytes) × (S.left source.new ≡ Some (drop (most + 1) bytes))) }
    ensures fault { IsErrOf result ReadStop.Fault
        → HasRisen (S.faults source.old) (S.faults source.new) }
    ensures faults { S.faults source.new ≡ faults_after_whole (S.faults source.old) result }
    ensures count { S.faults source.old ≤ S.faults source.new }
    ensures beside { S.beside source.new ≡ S.beside source.old }
{
    let mut bytes = Vec::new(alloc);
    let mut piece = [0u8; 4096];
    while bytes.len() < most {
        let room = piece.len().min(most - bytes.len());
        let Ok(count) = source.read(&mut piece[..room]) else {
            return Err(ReadStop::Fault);
        };
        if count == 0 {
            return Ok(bytes);
        }
        if bytes.extend_from_slice(&piece[..count]).is_err() {
            return Err(ReadStop::NoMemory);
        }
    }
    match source.read(&mut piece[..1]) {
        Ok(0) => Ok(bytes),
        Ok(_) => Err(ReadStop::TooLong),
        Err(Failed) => Err(ReadStop::Fault),
    }
}

/// Writes all the bytes. It takes no memory. If there are no bytes, it does not call the sink, and
/// it never gives the sink an empty piece.
///
/// `Failed` is returned only if the sink's count of faults has risen. In that case some of the bytes
/// from the front were written, but not all of them, so it is never returned if there are none. A
/// failed write is not tried again, so the count has then risen by one; it has not risen if
/// everything was written.
pub fn write_all<S: Sink>(sink: &mut S, bytes: &[u8]) -> Result<(), Failed>
    ensures ok { IfOk result (λ _. Appends (S.written sink.old) (S.written sink.new) bytes.now) }
    ensures prefix { OnErr result ((n : ℕ) × (n < length bytes.now)
        × Appends (S.written sink.old) (S.written sink.new) (take n bytes.now)) }
    ensures cause { HasCause (S.faults sink.old) (S.faults sink.new) result }
    ensures count { IsCounted (S.faults sink.old) (S.faults sink.new) result }
    ensures untouched { length bytes.now ≡ 0 → sink.new ≡ sink.old }
    ensures empty { S.empty_writes sink.new ≡ S.empty_writes sink.old }
    ensures beside { S.beside sink.new ≡ S.beside sink.old }
{
    let mut done = 0;
    while done < bytes.len() {
        done += sink.write(&bytes[done..])?;
    }
    Ok(())
}
