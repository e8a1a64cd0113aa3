// A run of the program over objects in memory, whose calls fail.
ghost use Rattle.std.specs.Prelude.{◌≡◌};

use split_base::{MemClock, MemDial, MemDisk, MemPort, MemSink, MemSource, Quiet};
use split_top::run;
use std::alloc::Global;
use std::process::Abort;
use std::thread::Threads;

/// How many bytes the sink takes.
const ROOM: usize = 64;

/// What a command finds beside its disk and its port: a source, a sink, and a dialer without links.
#[derive(Clone, Copy)]
pub(crate) struct Outside<'a> {
    /// What the source holds.
    pub(crate) input: &'a str,
    /// The most bytes that each read gives, and then whole buffers.
    pub(crate) pieces: &'a [usize],
    /// The numbers of the reads that fail, from 1.
    pub(crate) bad_reads: &'a [u64],
    /// The numbers of the writes that fail, from 1.
    pub(crate) bad_writes: &'a [u64],
}

/// No call fails.
pub(crate) const AMPLE: Outside<'static> = Outside {
    input: "",
    pieces: &[],
    bad_reads: &[],
    bad_writes: &[],
};

// A source, in these pieces, whose listed reads fail.
fn source_of(rt: &impl Abort, alloc: Global, outside: Outside<'_>) -> MemSource {
    let pieces = outside.pieces.to_vec(alloc).expect(rt, "no memory");
    assert!(rt; pieces.iter().all(|size| *size > 0));
    let bytes = outside.input.as_bytes().to_vec(alloc);
    let fails = outside.bad_reads.to_vec(alloc).expect(rt, "no memory");
    MemSource::new(bytes.expect(rt, "no memory"), pieces, fails)
}

// A sink whose listed writes fail.
fn sink_of(rt: &impl Abort, alloc: Global, outside: Outside<'_>) -> MemSink {
    let fails = outside.bad_writes.to_vec(alloc).expect(rt, "no memory");
    MemSink::new(alloc, ROOM, fails).expect(rt, "no memory")
}

// A port without links whose listed calls fail, from 1.
pub(crate) fn port_of(rt: &impl Abort, alloc: Global, bad_calls: &[u64]) -> MemPort
    ensures { result.out ≡ 0 }
{
    let fails = bad_calls.to_vec(alloc).expect(rt, "no memory");
    MemPort::new(alloc, Vec::new(alloc), fails).expect(rt, "no memory")
}

// A clock that shows the first second of 1970.
fn clock_of(rt: &impl Abort, alloc: Global) -> MemClock {
    let moments = [0].to_vec(alloc).expect(rt, "no memory");
    MemClock::new(moments, Vec::new(alloc))
}

// The words of a command.
fn words_of(rt: &impl Abort, alloc: Global, words: &[&str]) -> Vec<String> {
    let mut given = Vec::new(alloc);
    for word in words {
        let word = String::from_str(alloc, word).expect(rt, "no memory");
        given.push(word).expect(rt, "no memory");
    }
    given
}

// Stops unless the command of these words, on this disk and this port, ends with this status and text.
pub(crate) fn ends(
    rt: &(impl Abort + Threads + Sync),
    alloc: Global,
    disk: &mut MemDisk,
    port: &mut MemPort,
    words: &[&str],
    outside: Outside<'_>,
    due: (u8, &str),
)
    requires { port.old.out ≡ 0 }
    ensures { port.new.out ≡ 0 }
{
    let (code, text) = due;
    let words = words_of(rt, alloc, words);
    let mut source = source_of(rt, alloc, outside);
    let mut sink = sink_of(rt, alloc, outside);
    let mut clock = clock_of(rt, alloc);
    let mut dialer = MemDial::new(alloc, Vec::new(alloc), Vec::new(alloc)).expect(rt, "no memory");
    let status = run(
        alloc,
        rt,
        &words,
        disk,
        port,
        &mut clock,
        &mut source,
        &mut sink,
        &Quiet,
        &mut dialer,
    );
    assert!(rt; sink.bytes() == text.as_bytes(), "{text}");
    assert_eq!(rt; status.code, code, "{text}");
}
