//! Tries a host in memory over a whole round of requests, in which each call fails in turn.
//!
//! The round is in the input. The reply to each request without a fault is found first; nothing of it is listed here. The rule that the
//! tables then hold it to is one for all of them:
//!
//! - A failed read or write of the link ends it there, as a link fault. The bytes written are a first part of those without a fault. A request
//!   whose reply was being written is kept, and no other that was not replied to.
//! - A failed call of the clock has its request refused as `clock_fault`, and ends the link.
//! - A failed call of the disk has its request refused as `store_fault`, each failed call just one request.
//! - The client sends a request again until it gets another reply, and then the rest. Each gets what it gets without a fault, or if its event was
//!   kept already, what it gets without a fault when it is sent once more. At the end the same events are kept.
//! - A host that waits and gets a file which is not a journal refuses the request as `store_damaged`, with the place that opening the file by
//!   itself tells.
//! - If the disk stops, and what a crash leaves is opened, each acknowledged event is there, and at most that of the first request after them.
//!
//! Each table tells how many rounds were tried and how many differ from the rule.
#![tactic(auto)]

mod crashes;
mod damages;
mod disks;
mod dues;
mod hosts;
mod links;
mod reports;
mod rounds;

use crate::crashes::tell_crashes;
use crate::damages::try_damages;
use crate::disks::{tell_pairs, try_disks};
use crate::dues::dues_of;
use crate::hosts::Call;
use crate::links::{try_calls, try_pieces};
use crate::rounds::take_line;
use std::io;

// Tries the round that comes as lines, and writes a line for each kind of fault.
fn main(rt: HostRuntime) -> io::Result<()> {
    let alloc = rt.alloc();
    let mut round = Vec::new(alloc);
    for line in rt.lines(alloc) {
        take_line(alloc, &mut round, line?.as_str())?;
    }
    let dues = dues_of(alloc, &rt, round)?;
    println!(rt;
        "{} requests, {} bytes of replies",
        dues.each.len(),
        dues.whole.len()
    )?;
    try_pieces(alloc, &rt, &dues)?.tell(&rt, "pieces of 1, 2, 7 and 4096 bytes")?;
    try_calls(alloc, &rt, &dues, Call::Read)?.tell(&rt, "a read fails")?;
    try_calls(alloc, &rt, &dues, Call::Write)?.tell(&rt, "a write fails")?;
    try_calls(alloc, &rt, &dues, Call::Clock)?.tell(&rt, "the clock fails")?;
    try_disks(alloc, &rt, &dues)?.tell(&rt, "a call of the disk fails")?;
    tell_pairs(alloc, &rt, &dues)?;
    try_damages(alloc, &rt, &dues)?.tell(&rt, "a waiting host is handed a damaged file")?;
    tell_crashes(alloc, &rt, &dues)
}
