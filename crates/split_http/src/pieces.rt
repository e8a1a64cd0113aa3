// Writes the pieces of an HTTP reply one after the other, with short ones together in one write.
ghost use Rattle.std.specs.Prelude.{◌≡◌, ◌++◌, ℕ, List, OnOk, OnErr};
ghost use Rattle.std.specs.Io.KnownBytes.{Appends};
ghost use Rattle.std.specs.List.{flat_map};
ghost use Rattle.split_base.specs.Faults.{HasCause, IsCounted};
ghost use Rattle.split_http.specs.Pieces.{AppendsProperPart};

use arrayvec::ArrayVec;
use split_base::{Failed, Sink, write_all};

// How many bytes may wait to be written together, so that a short reply is one write.
const MOST_HELD: usize = 2048;

// Puts a piece after the bytes that wait. If it has no room these are written first, and a
// piece that is longer than the room goes with them.
fn hold<S: Sink>(
    sink: &mut S,
    held: &mut ArrayVec<u8, MOST_HELD>,
    piece: &[u8],
) -> Result<(), Failed>
    ensures whole { OnOk result
        ((out : List ℕ) × Appends (S.written sink.old) (S.written sink.new) out
        × (held.old.items ++ piece.now ≡ out ++ held.new.items)) }
    ensures part { OnErr result (AppendsProperPart (S.written sink.old) (S.written sink.new)
        (held.old.items ++ piece.now)) }
    ensures cause { HasCause (S.faults sink.old) (S.faults sink.new) result }
    ensures count { IsCounted (S.faults sink.old) (S.faults sink.new) result }
    ensures empty { S.empty_writes sink.new ≡ S.empty_writes sink.old }
    ensures beside { S.beside sink.new ≡ S.beside sink.old }
{
    if held.try_extend_from_slice(piece).is_ok() {
        return Ok(());
    }
    write_all(sink, held.as_slice())?;
    held.clear();
    if held.try_extend_from_slice(piece).is_ok() {
        return Ok(());
    }
    write_all(sink, piece)?;
    Ok(())
}

// Writes all the pieces, up to the first write that fails. It takes no memory.
pub(crate) fn write_pieces<S: Sink>(sink: &mut S, pieces: &[&[u8]]) -> Result<(), Failed>
    ensures whole { OnOk result
        (Appends (S.written sink.old) (S.written sink.new) (flat_map (λ p. p.now) pieces.now)) }
    ensures part { OnErr result (AppendsProperPart (S.written sink.old) (S.written sink.new)
        (flat_map (λ p. p.now) pieces.now)) }
    ensures cause { HasCause (S.faults sink.old) (S.faults sink.new) result }
    ensures count { IsCounted (S.faults sink.old) (S.faults sink.new) result }
    ensures empty { S.empty_writes sink.new ≡ S.empty_writes sink.old }
    ensures beside { S.beside sink.new ≡ S.beside sink.old }
{
    let mut held = ArrayVec::new();
    for piece in pieces {
        hold(sink, &mut held, piece)?;
    }
    write_all(sink, held.as_slice())?;
    Ok(())
}
