// A connection: bytes come from it and go into it.
ghost use Rattle.std.specs.Prelude.{◌≡◌};

use crate::{Sink, Source};

/// A source and a sink in one object, whose two sides leave each other alone: a read changes neither
/// what was written nor the sink's counts, and a write changes neither what is left to read nor the
/// source's counts.
///
/// It has no calls of its own. Its two laws say that what each side calls `beside` is the other side.
/// The count of faults of a link has risen if that of one of its sides has.
pub trait Link: Source + Sink {
    /// Beside the source are the bytes that were written and the sink's two counts.
    ghost source_beside: { (link : Self) → Self.Source.beside link ≡ (Self.Sink.written link, Self.Sink.faults link, Self.Sink.empty_writes link) };

    /// Beside the sink are the bytes that are left and the source's two counts.
    ghost sink_beside: { (link : Self) → Self.Sink.beside link ≡ (Self.Source.left link, Self.Source.faults link, Self.Source.empty_reads link) };
}

/// What a call on one side of a link leaves unchanged on the other. A read doesn't change what was
/// written, or the counts of failed and of empty writes; a write doesn't change what is left to read,
/// or the counts of failed reads and of reads that gave nothing.
pub fn sides_law<L: Link>()
    ensures read { (before after : L) → L.Source.beside after ≡ L.Source.beside before
        → (L.Sink.written after ≡ L.Sink.written before)
        × (L.Sink.faults after ≡ L.Sink.faults before)
        × (L.Sink.empty_writes after ≡ L.Sink.empty_writes before) }
    ensures write { (before after : L) → L.Sink.beside after ≡ L.Sink.beside before
        → (L.Source.left after ≡ L.Source.left before)
        × (L.Source.faults after ≡ L.Source.faults before)
        × (L.Source.empty_reads after ≡ L.Source.empty_reads before) }
{}
