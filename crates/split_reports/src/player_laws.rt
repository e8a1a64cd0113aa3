// Laws about reports and lines on players, which grow line by line. Each is the contract of a function that does nothing.
ghost use Rattle.std.specs.Prelude.{◌≡◌, ℕ, ◌+◌, ◌++◌, List};
ghost use Rattle.split_reports.specs.Parts.{lines_to};

/// A text to which the lines of the first few numbers were appended has those of one number more once its line is appended, too.
pub fn lines_law()
    ensures { (line : ℕ → List ℕ) (k : ℕ) (start old new : List ℕ) → old ≡ start ++ lines_to k line
        → new ≡ old ++ line (k + 1) → new ≡ start ++ lines_to (k + 1) line }
{}
