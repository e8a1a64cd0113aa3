// The command table.
ghost use Rattle.std.specs.Prelude.{◌≡◌, [], ◌∷◌, MatchOption, map, string_bytes};
ghost use Rattle.search_workers.specs.declared.limits.TheConstants.{MOST_WORKERS};
ghost use Rattle.split_top.specs.Commands.{AreNoRow, Names};
ghost use Rattle.split_top.specs.Words.{IsNoNumber, IsNumber};
ghost use Rattle.split_top.specs.declared.limits.TheConstants.{MOST_PORT};

use crate::limits::{MOST_COUNT, MOST_ID, MOST_NUMBER, MOST_PORT};
use crate::words::{key_in, number_in, secret_in};
use gate_log::SECRET_SIZE;
use input_commands::InputCommand;
use remote_check::Words;
use search_workers::Workers;
use search_workers::limits::MOST_WORKERS;

/// A row of the command table.
#[derive(Clone, Copy, Debug)]
pub enum Command {
    /// `init SECRET`: makes the journal, with the secret of 64 hexadecimal digits.
    Init {
        secret: [u8; SECRET_SIZE],
    },
    /// `serve PORT WORKERS COUNT`: serves connections, and writes how many.
    Serve {
        port: u16,
        workers: Workers,
        count: u64,
    },
    /// `dump`: writes the instances of the journal as comma-separated values.
    Dump,
    /// `trial NUMBER WORKERS`: makes three cases from the number, solves and checks them, and writes what came of it.
    Trial {
        number: u64,
        workers: Workers,
    },
    /// `audit PORT ID KEY`: fetches the certificate of an instance from a host on this machine, and writes whether all its rules hold.
    Audit {
        port: u16,
        words: Words,
    },
    /// One that reads an input: `solve WORKERS`, `report WORKERS`, `check`, `weigh`, `winner` or `checkwinner`.
    Read {
        reads: InputCommand,
    },
}

// The command that the words name, if they are a row of the command table.
pub(crate) fn command_of(words: &[String]) -> Option<Command>
    ensures { MatchOption result (AreNoRow (map string_bytes words.now))
        (Names (map string_bytes words.now)) }
{
    match words.split_first() {
        Some((name, rest)) => command_named(name.as_str(), rest),
        None => None,
    }
}

// The command of this name, with the words after it.
fn command_named(name: &str, rest: &[String]) -> Option<Command>
    ensures { MatchOption result (AreNoRow (name.now ∷ map string_bytes rest.now))
        (Names (name.now ∷ map string_bytes rest.now)) }
{
    match rest {
        [] => lone_command(name),
        [word] => command_of_one(name, word.as_str()),
        [first, second] => command_of_two(name, first.as_str(), second.as_str()),
        [first, second, third] => {
            command_of_three(name, first.as_str(), second.as_str(), third.as_str())
        }
        _ => None,
    }
}

// The command of this name alone.
fn lone_command(name: &str) -> Option<Command>
    ensures { MatchOption result (AreNoRow (name.now ∷ [])) (Names (name.now ∷ [])) }
{
    match name {
        "dump" => Some(Command::Dump),
        "check" => Some(reading(InputCommand::Check)),
        "weigh" => Some(reading(InputCommand::Weigh)),
        "winner" => Some(reading(InputCommand::Winner)),
        "checkwinner" => Some(reading(InputCommand::CheckWinner)),
        _ => None,
    }
}

// The command of this name with one word more.
fn command_of_one(name: &str, word: &str) -> Option<Command>
    ensures { MatchOption result (AreNoRow (name.now ∷ word.now ∷ []))
        (Names (name.now ∷ word.now ∷ [])) }
{
    match name {
        "init" => Some(Command::Init {
            secret: secret_in(word)?,
        }),
        "solve" => Some(reading(InputCommand::Solve {
            workers: workers_in(word)?,
        })),
        "report" => Some(reading(InputCommand::Report {
            workers: workers_in(word)?,
        })),
        _ => None,
    }
}

// The command of this name with two words more.
fn command_of_two(name: &str, first: &str, second: &str) -> Option<Command>
    ensures { MatchOption result (AreNoRow (name.now ∷ first.now ∷ second.now ∷ []))
        (Names (name.now ∷ first.now ∷ second.now ∷ [])) }
{
    match name {
        "trial" => Some(Command::Trial {
            number: number_in(first, 0, MOST_NUMBER)?,
            workers: workers_in(second)?,
        }),
        _ => None,
    }
}

// The command of this name with three words more.
fn command_of_three(name: &str, first: &str, second: &str, third: &str) -> Option<Command>
    ensures { MatchOption result (AreNoRow (name.now ∷ first.now ∷ second.now ∷ third.now ∷ []))
        (Names (name.now ∷ first.now ∷ second.now ∷ third.now ∷ [])) }
{
    match name {
        "serve" => Some(Command::Serve {
            port: port_in(first)?,
            workers: workers_in(second)?,
            count: number_in(third, 1, MOST_COUNT)?,
        }),
        "audit" => Some(Command::Audit {
            port: port_in(first)?,
            words: Words {
                id: number_in(second, 1, MOST_ID)? as u32,
                key: key_in(third)?,
            },
        }),
        _ => None,
    }
}

// A command that reads an input.
fn reading(reads: InputCommand) -> Command
    ensures { result ≡ Command.Read reads }
{
    Command::Read { reads }
}

// The number of workers that a word says.
fn workers_in(word: &str) -> Option<Workers>
    ensures { MatchOption result (IsNoNumber 1 MOST_WORKERS word.now)
        (IsNumber 1 MOST_WORKERS word.now) }
{
    let count = number_in(word, 1, u64::from(MOST_WORKERS))?;
    Some(Workers::new(count as u8))
}

// The number of a port that a word says.
fn port_in(word: &str) -> Option<u16>
    ensures { MatchOption result (IsNoNumber 1 MOST_PORT word.now) (IsNumber 1 MOST_PORT word.now) }
{
    Some(number_in(word, 1, MOST_PORT)? as u16)
}
