//! The program: the commands over the journal's file, TCP, the system's clock and the standard streams.
//!
//! `main` has no contract: it hands the outside to `run` and ends with its status. Before that it may end by itself. If a standard
//! descriptor is closed and the null device can't be opened in its place, it ends with 6 and writes nothing. If there is no memory for
//! the words it ends with 9, and writes `no memory` if it can. Only a program has a `main`, so it is a crate of its own.
#![tactic(auto)]

use adapters::{
    Arrival, JournalFile, LinkLimits, Reading, StandardDescriptors, Started, SystemClock,
    TcpDialer, Writing, words_of,
};
use client_port::{PortLimits, TcpPort};
use split_base::{NoMemory, Quiet, write_all};
use split_top::{Stop, run};
use std::io;
use std::process::ExitCode;

/// The file of the journal, in the folder that the program is run in.
const JOURNAL: &str = "split.journal";

/// That folder.
const FOLDER: &str = ".";

/// The status if a standard descriptor is closed and can't be taken: the same as when a write fails.
const WRITE_FAILED: u8 = 6;

// The standard descriptors are taken before anything is opened, so that no closed stream can lead into the journal.
fn main(rt: HostRuntime) -> ExitCode {
    let Ok(_taken) = StandardDescriptors::take(&rt, &rt.stdin(), &rt.stdout(), &rt.stderr()) else {
        return ExitCode::from(WRITE_FAILED);
    };
    let mut output = Writing::new(io::writer(&rt));
    let words = match words_of(rt.alloc(), &Started::new(&rt)) {
        Ok(words) => words,
        Err(NoMemory) => {
            let owed = Stop::NoMemory.owed();
            let _ = write_all(&mut output, &owed.line);
            return ExitCode::from(owed.status);
        }
    };
    let arrival = Arrival::none();
    let mut port = TcpPort::new(rt.alloc(), &rt, &arrival, PortLimits::usual());
    let status = run(
        rt.alloc(),
        &rt,
        &words,
        &mut JournalFile::new(&rt, JOURNAL, FOLDER),
        &mut port,
        &mut SystemClock::new(&rt, &arrival),
        &mut Reading::new(rt.reader()),
        &mut output,
        &Quiet,
        &mut TcpDialer::new(&rt, LinkLimits::usual()),
    );
    port.finish();
    ExitCode::from(status.code)
}
