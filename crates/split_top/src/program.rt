// The top call: from words to a status and what is written.
ghost use Rattle.std.specs.Prelude.{◌≡◌, ◌≤◌, ℕ, map, string_bytes};
ghost use Rattle.command_results.specs.Endings.{ending_of, owed};
ghost use Rattle.command_results.specs.ObjectUse.{Ends, ObjectUse, use_of};
ghost use Rattle.serving.specs.Served.{tells_of};
ghost use Rattle.split_top.specs.Causes.{Holds};
ghost use Rattle.split_top.specs.Commands.{AskToServe};
ghost use Rattle.split_top.specs.Outside.{outside_of};
ghost use Rattle.split_top.specs.Runs.{Came, Comes, Tries, tells_by};

use crate::auditing::audit;
use crate::command::{Command, command_of};
use command_results::{Stop, Text};
use host_commands::{dump, headline_law, make, serve_port};
use host_journal::events_law;
use input_commands::{input_answer_law, input_ending};
use search_workers::{Means, Workers};
use split_base::{Clock, Dial, Disk, Failed, Gate, Port, Sink, Source, write_all};
use std::alloc::Global;
use std::thread::Threads;
use trial_runs::trial_text;

/// The status with which the program ends.
#[derive(Clone, Copy, Debug, PartialEq, Eq)]
pub struct Status {
    /// From 0 to 9, as `run` says.
    pub code: u8,
}

/// Does what the words ask for, and writes what the command owes.
///
/// | words | does |
/// |---|---|
/// | `init SECRET` | makes the journal, with the secret of 64 hexadecimal digits; writes nothing |
/// | `serve PORT WORKERS COUNT` | opens the journal, listens at the port, serves COUNT connections (a connection that comes back after others counts again), then exits; writes `served` and their number, which is smaller than COUNT only if no connection comes any more |
/// | `dump` | opens the journal, and writes its instances as comma-separated values |
/// | `trial NUMBER WORKERS` | makes three cases from the number, solves them and checks their certificates, and writes four lines |
/// | `audit PORT ID KEY` | has a host on this machine give an instance's certificate, judges it, and writes `yes` or `no` and the rule |
/// | `solve WORKERS`, `report WORKERS` | reads a case as JSON, and writes the certificate or the report of its best division |
/// | `weigh` | reads a case of goods and a proposed division, and writes the audit of that division |
/// | `winner` | reads a case of goods, and writes the division by adjusted winner between its two players |
/// | `check`, `checkwinner` | reads a certificate, or the text of adjusted winner, and writes `yes` or `no` and the first broken rule |
///
/// WORKERS says how many threads may work at the same time, from 1 to `MOST_WORKERS`. It never changes the result. The gate is told when a worker is about to walk
/// a task of a search, and when that walk has ended.
///
/// | status | comes | line |
/// |---|---|---|
/// | 0 | the command came to its text | that text |
/// | 1 | exactly if bids are missing; if the step count of goods, or the count of prefixes that an audit leaves open, is above the case's limit; if a case for adjusted winner doesn't have two players; or if a rule is broken | `void:` and the members who lack a bid; `step limit` and the limit; `not two`; `no` and the first such rule |
/// | 2 | exactly if the words are no row of the command table | `refused: words` |
/// | 3 | exactly if the input is too long, no JSON, breaks a field's rule, or is no text of its grammar; or if what a host replied is no reply that holds a certificate, or has another status than 200 | `refused: too long`, `refused: json`, `refused: field NAME`, `refused: line K` with the first broken line, `refused: reply`, `refused: status N` |
/// | 4 | exactly if the file is no journal, or not empty when one is to be made | `refused: journal at PLACE` |
/// | 5 | only if the input's count of faults rose in this call, by one | `read fault` |
/// | 6 | only if one write failed and a byte of the text is missing: the output's count rose in this call, by one | a first part of the text, and not all of it |
/// | 7 | only if the disk's count rose, by one, while the file was made or opened | `store fault` |
/// | 8 | only if the port's count rose in `listen` or `accept`, or the dialer's, by one | `port fault` |
/// | 9 | only if there was no memory; never for `init`, `check`, `checkwinner` and `audit`, nor for `serve` once it listens | `no memory` |
///
/// The tests come in the order of the work: words, reading, file, port, solving or judging, writing. What a command does not use is untouched: it is not
/// called. `serve` asks the port once to listen, at PORT and at no other, and for one link after the other; so the port comes with no link out. After each
/// command as many are out as before it, so that the same port may serve again. `audit` asks the dialer once for a link, to PORT and to no other. No write of no
/// bytes reaches the output.
#[allow(clippy::too_many_arguments)]
pub fn run<
    R: Threads + Sync,
    D: Disk,
    P: Port,
    C: Clock,
    I: Source,
    O: Sink,
    G: Gate + Sync,
    X: Dial,
>(
    alloc: Global,
    rt: &R,
    words: &[String],
    disk: &mut D,
    port: &mut P,
    clock: &mut C,
    input: &mut I,
    output: &mut O,
    gate: &G,
    dialer: &mut X,
) -> Status
    requires none_out { AskToServe (map string_bytes words.now) → P.out port.old ≡ 0 }
    ensures holds { Holds
        (tells_by D.Disk P.Port (tells_of P.Link.Source P.Link.Sink) C.Clock X.Dial
        (tells_of X.Link.Source X.Link.Sink))
        (outside_of disk.old disk.new port.old port.new clock.old clock.new dialer.old dialer.new
        (use_of I.left I.faults input.old input.new)
        (use_of O.written O.faults output.old output.new)) (map string_bytes words.now)
        result.code }
    ensures out { P.out port.new ≡ P.out port.old }
    ensures empty { O.empty_writes output.new ≡ O.empty_writes output.old }
    ensures output { O.faults output.old ≤ O.faults output.new }
{
    events_law();
    headline_law::<D, P, C>();
    input_answer_law();
    let means = Means { alloc, rt, gate };
    let ending = decide(&means, words, disk, port, clock, input, dialer);
    write_ending(output, &ending)
}

// Writes the ending's text, and answers its status, or 6 if a write failed.
fn write_ending<O: Sink>(output: &mut O, ending: &Result<Text, Stop>) -> Status
    ensures ends { Ends (use_of O.written O.faults output.old output.new)
        (owed (ending_of ending.now)).text (owed (ending_of ending.now)).status result.code }
    ensures empty { O.empty_writes output.new ≡ O.empty_writes output.old }
    ensures count { O.faults output.old ≤ O.faults output.new }
{
    match ending {
        Ok(text) => write_text(output, text.as_bytes(), 0),
        Err(stop) => {
            let owed = stop.owed();
            write_text(output, &owed.line, owed.status)
        }
    }
}

// Writes the text, and answers this status, or 6 if a write failed.
fn write_text<O: Sink>(output: &mut O, text: &[u8], code: u8) -> Status
    ensures ends { Ends (use_of O.written O.faults output.old output.new) text.now code
        result.code }
    ensures empty { O.empty_writes output.new ≡ O.empty_writes output.old }
    ensures count { O.faults output.old ≤ O.faults output.new }
{
    match write_all(output, text) {
        Ok(()) => Status { code },
        Err(Failed) => Status { code: 6 },
    }
}

// How the command of the words ends, before anything is written.
fn decide<R: Threads + Sync, D: Disk, P: Port, C: Clock, I: Source, G: Gate + Sync, X: Dial>(
    means: &Means<'_, R, G>,
    words: &[String],
    disk: &mut D,
    port: &mut P,
    clock: &mut C,
    input: &mut I,
    dialer: &mut X,
) -> Result<Text, Stop>
    requires { AskToServe (map string_bytes words.now) → P.out port.old ≡ 0 }
    ensures comes { (output : ObjectUse)
        → Comes
        (tells_by D.Disk P.Port (tells_of P.Link.Source P.Link.Sink) C.Clock X.Dial
        (tells_of X.Link.Source X.Link.Sink))
        (outside_of disk.old disk.new port.old port.new clock.old clock.new dialer.old dialer.new
        (use_of I.left I.faults input.old input.new) output) (map string_bytes words.now)
        (ending_of result) }
    ensures out { P.out port.new ≡ P.out port.old }
{
    match command_of(words) {
        None => Err(Stop::BadWords),
        Some(command) => execute(means, command, disk, port, clock, input, dialer),
    }
}

// How a command ends, before anything is written.
fn execute<R: Threads + Sync, D: Disk, P: Port, C: Clock, I: Source, G: Gate + Sync, X: Dial>(
    means: &Means<'_, R, G>,
    command: Command,
    disk: &mut D,
    port: &mut P,
    clock: &mut C,
    input: &mut I,
    dialer: &mut X,
) -> Result<Text, Stop>
    requires { (number workers count : ℕ) → command ≡ Command.Serve number workers count
        → P.out port.old ≡ 0 }
    ensures came { (output : ObjectUse)
        → Came
        (tells_by D.Disk P.Port (tells_of P.Link.Source P.Link.Sink) C.Clock X.Dial
        (tells_of X.Link.Source X.Link.Sink))
        (outside_of disk.old disk.new port.old port.new clock.old clock.new dialer.old dialer.new
        (use_of I.left I.faults input.old input.new) output) command (ending_of result) }
    ensures out { P.out port.new ≡ P.out port.old }
{
    match command {
        Command::Init { secret } => make(disk, &secret),
        Command::Serve {
            port: number,
            workers,
            count,
        } => serve_port(means, workers, disk, port, clock, number, count),
        Command::Dump => dump(means.alloc, disk),
        Command::Trial { number, workers } => trial(means, workers, number),
        Command::Audit {
            port: number,
            words,
        } => audit(dialer, number, &words),
        Command::Read { reads } => input_ending(means, reads, input),
    }
}

// The trial of a number.
fn trial<R: Threads + Sync, G: Gate + Sync>(
    means: &Means<'_, R, G>,
    workers: Workers,
    number: u64,
) -> Result<Text, Stop>
    ensures { Tries number (ending_of result) }
{
    Ok(Text::Kept(trial_text(means, workers, number)?))
}
