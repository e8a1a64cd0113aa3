// The commands that read an input.
use search_workers::Workers;

/// A command that reads an input.
#[derive(Clone, Copy, Debug, PartialEq, Eq)]
pub enum InputCommand {
    /// `solve WORKERS`: reads a case as JSON, and writes the certificate of its best division.
    Solve { workers: Workers },
    /// `report WORKERS`: reads a case as JSON, and writes what its best division means for each member.
    Report { workers: Workers },
    /// `check`: reads a certificate, and writes whether its rules hold.
    Check,
    /// `weigh`: reads a case of goods and a proposed division of them as JSON, and writes the audit of that division.
    Weigh,
    /// `winner`: reads a case of goods as JSON, and writes the division by adjusted winner between its two players.
    Winner,
    /// `checkwinner`: reads the text of adjusted winner, and writes whether its rules hold.
    CheckWinner,
}
