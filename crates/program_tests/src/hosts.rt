// The commands on a host's file and port in memory, whose calls fail.
use crate::running::{AMPLE, ends, port_of};
use split_base::MemDisk;
use std::process::Abort;

/// 64 digits, as a secret and as a key.
const DIGITS: &str = "0123456789abcdef0123456789abcdef0123456789abcdef0123456789abcdef";

/// Room for the file and for the list of its calls.
const ROOM: usize = 1024;

// Each row is a command, and how it ends. All of them find one file and one port, whose first and third call fail. So `serve` serves again at
// a port that has ended.
#[test]
fn ends_at_the_faults_of_a_host(rt: HostRuntime) {
    let alloc = rt.alloc();
    let bad_calls = [1].to_vec(alloc).expect(&rt, "no memory");
    let mut disk = MemDisk::new(alloc, Vec::new(alloc), ROOM, bad_calls, None).expect(
        &rt,
        "no memory",
    );
    let mut port = port_of(&rt, alloc, &[1, 3]);
    let serve = ["serve", "8080", "1", "1"];
    let rows: [(&[&str], (u8, &str)); 6] = [
        (&["init", DIGITS], (7, "store fault\n")),
        (&["init", DIGITS], (0, "")),
        (&serve, (8, "port fault\n")),
        (&serve, (8, "port fault\n")),
        (&serve, (0, "served 0\n")),
        (&serve, (0, "served 0\n")),
    ];
    for (words, due) in rows {
        ends(&rt, alloc, &mut disk, &mut port, words, AMPLE, due);
    }
}
