// Tests of sources and links in memory, in pieces of several sizes, and when calls fail.
use crate::objects::link_of;
use split_base::{Failed, Link, ReadStop, read_all, write_all};

// The pieces don't matter, but a failed read and a text that is too long do.
#[test]
fn a_source_is_read_to_its_end(rt: HostRuntime) {
    let alloc = rt.alloc();
    // The size of the pieces, the failing read, the most bytes, and the answer for "abc".
    let cases: [(usize, u64, usize, Result<&[u8], ReadStop>); 6] = [
        (8, 0, 3, Ok(b"abc")),
        (1, 5, usize::MAX, Ok(b"abc")),
        (1, 1, 3, Err(ReadStop::Fault)),
        (1, 4, 3, Err(ReadStop::Fault)),
        (1, 0, 2, Err(ReadStop::TooLong)),
        (8, 0, 0, Err(ReadStop::TooLong)),
    ];
    for (piece, read, most, due) in cases {
        let mut link = link_of(&rt, alloc, b"abc", piece, &[read], &[]);
        match read_all(alloc, &mut link, most) {
            Ok(bytes) => assert!(rt; due == Ok(bytes.as_slice()), "at most {most}"),
            Err(stop) => assert!(rt; due == Err(stop), "read {read}, at most {most}"),
        }
    }
}

// Reads once and writes what was read; tells whether the end has come.
fn echo_piece<L: Link>(link: &mut L) -> Result<bool, Failed> {
    let mut piece = [0u8; 8];
    let count = link.read(&mut piece)?;
    write_all(link, &piece[..count])?;
    Ok(count == 0)
}

// Writes all that is read, piece by piece, and tells the last turn that failed.
fn echo_all<L: Link>(link: &mut L) -> u32 {
    let mut failed = 0;
    for turn in 1..9u32 {
        match echo_piece(link) {
            Ok(true) => break,
            Ok(false) => {}
            Err(Failed) => failed = turn,
        }
    }
    failed
}

// A link that fails in between must show what has been written so far.
#[test]
fn a_link_is_read_and_written(rt: HostRuntime) {
    // The size of the pieces, the failing read, the failing write, the turn that failed, and what
    // was written. A read that fails takes nothing; a write that fails loses its piece.
    let cases: [(usize, u64, u64, u32, &[u8]); 7] = [
        (8, 0, 0, 0, b"abcdef"),
        (1, 0, 0, 0, b"abcdef"),
        (2, 1, 0, 1, b"abcdef"),
        (2, 3, 0, 3, b"abcdef"),
        (2, 0, 1, 1, b"cdef"),
        (2, 0, 2, 2, b"abef"),
        (2, 0, 3, 3, b"abcd"),
    ];
    for (piece, read, write, turn, written) in cases {
        let mut link = link_of(&rt, rt.alloc(), b"abcdef", piece, &[read], &[write]);
        assert!(rt; echo_all(&mut link) == turn);
        assert!(rt;
            link.output().bytes() == written,
            "read {read}, write {write}"
        );
    }
}
