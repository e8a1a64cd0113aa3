// Commands that read their input, over a source and a sink whose calls fail.
use crate::running;
use crate::running::{AMPLE, Outside, port_of};
use split_base::MemDisk;
use std::alloc::Global;
use std::process::Abort;
use std::thread::Threads;

/// A command, its input, and how it ends if no call fails: one that judges its input on the way, and one that reads all of it first.
const COMMANDS: [(&[&str], &str, (u8, &str)); 2] = [
    (&["check"], "fairsplit 2\n", (3, "refused: line 1\n")),
    (&["solve", "1"], "[", (3, "refused: json\n")),
];

// Stops unless the command of these words, which uses no disk, ends with this status and text.
fn ends(
    rt: &(impl Abort + Threads + Sync),
    alloc: Global,
    words: &[&str],
    outside: Outside<'_>,
    due: (u8, &str),
) {
    let none = Vec::new(alloc);
    let mut disk = MemDisk::new(alloc, none, 0, Vec::new(alloc), None).expect(rt, "no memory");
    let mut port = port_of(rt, alloc, &[]);
    running::ends(rt, alloc, &mut disk, &mut port, words, outside, due);
}

// Each read fails once, also the one that finds the end.
#[test]
fn ends_at_a_failed_read(rt: HostRuntime) {
    let alloc = rt.alloc();
    for (words, input, told) in COMMANDS {
        let calls = input.len() as u64 + 1;
        for call in 1..calls + 2 {
            let outside = Outside {
                input,
                pieces: &[1; 12],
                bad_reads: &[call],
                ..AMPLE
            };
            let due = if call <= calls {
                (5, "read fault\n")
            } else {
                told
            };
            ends(&rt, alloc, words, outside, due);
        }
    }
}

// The first write fails, or none that is made.
#[test]
fn ends_at_a_failed_write(rt: HostRuntime) {
    let alloc = rt.alloc();
    for (words, input, told) in COMMANDS {
        for (bad_write, due) in [(1, (6, "")), (2, told)] {
            let outside = Outside {
                input,
                bad_writes: &[bad_write],
                ..AMPLE
            };
            ends(&rt, alloc, words, outside, due);
        }
    }
}
