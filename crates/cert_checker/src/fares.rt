// Takes the lines of a certificate of fares: those of the head are gathered, and those of the sets are judged as they come, in rows that the
// caller lends.
ghost use Rattle.std.specs.Prelude.{◌≡◌, ℕ, ◌+◌, ◌-◌, ◌<◌, ◌++◌, ◌∷◌, [], List, length, map, IsTrue, ◌↔◌};
ghost use Rattle.split_frac.specs.Frac.{fraction_of};
ghost use Rattle.cert_reader.specs.Gathered.{Gathered, line_said};
ghost use Rattle.cert_reader.specs.Text.{Numbers, Said};
ghost use Rattle.cert_reader.specs.Layout.{FaresView};
ghost use Rattle.cert_reader.specs.Views.{fares_said, says};
ghost use Rattle.cert_reader.specs.declared.places.TheConstants.{FARES_PLACES, KIND_LINES};
ghost use Rattle.fare_rules.specs.Rules.{rules_of_fares};
ghost use Rattle.fare_rules.specs.State.{costs_of};
ghost use Rattle.rule_verdicts.specs.Verdicts.{IsVerdictOf};
ghost use Rattle.cert_checker.specs.declared.fares.TheConstants.{FIXED_LINES};
ghost use Rattle.cert_checker.specs.FaresLines.{HasNoTable, IsAt, IsBehindHead, IsNext, IsWhole, front_said, head_said};

use crate::gathering::gather;
use arrayvec::ArrayVec;
use bid_rules::limits::{LEG_ROW_ROOM, RIDER_ROOM};
use cert_reader::limits::MOST_NUMBERS;
use cert_reader::places::{
    FARES_END, FARES_FARES, FARES_FLAG, FARES_LEGS, FARES_PLACES, FARES_ROUTE, FARES_SETS,
    KIND_LINES,
};
use cert_reader::{LineNumbers, number_at, row_at, rows_of, set_count, whole_row};
use fare_rules::{FaresState, PrintedRow, Rows, end_fares, start_fares, take_set};
use rule_verdicts::Verdict;

/// The lines of the head besides the legs from the places: `riders`, `places`, `flag`, the legs from the origin, `who` and `at`.
const FIXED_LINES: usize = FARES_LEGS - KIND_LINES + 1 + FARES_SETS;
/// The most lines of the head.
const HEAD_LINES: usize = FIXED_LINES - 1 + LEG_ROW_ROOM;

/// The lines of the head so far.
type HeadLines = ArrayVec<LineNumbers, HEAD_LINES>;

/// The lines of fares so far, after the two that say the kind.
#[derive(Drop)]
pub(crate) enum FaresLines {
    /// Some of the head.
    Head(HeadLines),
    /// The head, and some lines after it.
    Table(TableLines),
}

/// What is known after the head.
#[derive(Drop)]
pub(crate) struct TableLines {
    /// The judge of the lines of sets.
    state: FaresState,
    /// How many lines of sets are still to come.
    left: u32,
    /// The lines after these.
    last: ArrayVec<LineNumbers, FARES_END>,
}

impl FaresLines {
    // None so far. Never inlined: it builds a large value, whose stack would otherwise be held for the whole check.
    #[inline(never)]
    pub(crate) fn new() -> FaresLines
        ensures { (view : FaresView) (rows : List (List ℕ))
            → IsAt view (front_said []) result rows }
    {
        FaresLines::Head(HeadLines::new())
    }

    // Takes a line of the head, and begins with the sets if it was the last. It needs much stack, so it is kept out of `take`.
    #[inline(never)]
    fn take_head(&mut self, rows: &mut Rows, numbers: &LineNumbers)
        requires head { HasNoTable self.old }
        requires next { (view : FaresView) × (said : List Said)
            × IsNext view said (map fraction_of numbers.now.items)
            × IsAt view said self.old (costs_of rows.old.items) }
        ensures { (view : FaresView) (said : List Said)
            → IsNext view said (map fraction_of numbers.now.items)
            → IsAt view said self.old (costs_of rows.old.items)
            → IsAt view (said ++ Numbers (map fraction_of numbers.now.items) ∷ []) self.new
            (costs_of rows.new.items) }
    {
        match self {
            FaresLines::Head(lines) => {
                gather(lines, numbers);
                if is_whole(lines.as_slice()) {
                    *self = FaresLines::Table(begin(rows, lines.as_slice()));
                }
            }
            FaresLines::Table(_) => unreachable!(),
        }
    }

    // Takes the next line.
    pub(crate) fn take(&mut self, rows: &mut Rows, numbers: &LineNumbers)
        requires { (view : FaresView) × (said : List Said)
            × IsNext view said (map fraction_of numbers.now.items)
            × IsAt view said self.old (costs_of rows.old.items) }
        ensures { (view : FaresView) (said : List Said)
            → IsNext view said (map fraction_of numbers.now.items)
            → IsAt view said self.old (costs_of rows.old.items)
            → IsAt view (said ++ Numbers (map fraction_of numbers.now.items) ∷ []) self.new
            (costs_of rows.new.items) }
    {
        match self {
            FaresLines::Head(_) => self.take_head(rows, numbers),
            FaresLines::Table(table) => table.take(rows, numbers),
        }
    }

    // The verdict, once all lines before `end` have come.
    pub(crate) fn verdict(&self, rows: &Rows) -> Verdict
        requires { (view : FaresView) × (said : List Said) × IsWhole view
            × (fares_said view ≡ said ++ says [] ∷ [])
            × IsAt view said self.now (costs_of rows.now.items) }
        ensures { (view : FaresView) (said : List Said) → IsWhole view
            → fares_said view ≡ said ++ says [] ∷ []
            → IsAt view said self.now (costs_of rows.now.items)
            → IsVerdictOf (rules_of_fares view) result }
    {
        match self {
            FaresLines::Head(_) => unreachable!(),
            FaresLines::Table(table) => table.verdict(rows),
        }
    }
}

// Whether these are all lines of a head.
fn is_whole(lines: &[LineNumbers]) -> bool
    requires { (view : FaresView) × (rest : List Said) × IsWhole view
        × (head_said view ≡ map line_said lines.now ++ rest) }
    ensures { (view : FaresView) (rest : List Said) → IsWhole view
        → head_said view ≡ map line_said lines.now ++ rest → IsTrue result
        ↔ length lines.now ≡ view.places + FIXED_LINES }
{
    lines.len() > FARES_PLACES - KIND_LINES && lines.len() == FIXED_LINES + places_of(lines)
}

// How many places the head counts.
fn places_of(lines: &[LineNumbers]) -> usize
    requires head { (view : FaresView) × (rest : List Said) × IsWhole view
        × (head_said view ≡ map line_said lines.now ++ rest) }
    requires counted { FARES_PLACES - KIND_LINES < length lines.now }
    ensures { (view : FaresView) (rest : List Said) → IsWhole view
        → head_said view ≡ map line_said lines.now ++ rest → result ≡ view.places }
{
    number_at(lines, FARES_PLACES - KIND_LINES) as usize
}

// Begins with the sets, after the lines of a head.
fn begin(rows: &mut Rows, lines: &[LineNumbers]) -> TableLines
    requires { (view : FaresView) × IsWhole view × (map line_said lines.now ≡ head_said view) }
    ensures { (view : FaresView) → IsWhole view → map line_said lines.now ≡ head_said view
        → IsBehindHead view (front_said (map line_said lines.now)) result
        (costs_of rows.new.items) }
{
    let at = lines.len() - 1;
    let who = at - 1;
    let legs: ArrayVec<PrintedRow, LEG_ROW_ROOM> = rows_of(&lines[FARES_LEGS - KIND_LINES..who]);
    let members: ArrayVec<i128, RIDER_ROOM> = row_at(lines, who);
    let stops: ArrayVec<i128, RIDER_ROOM> = row_at(lines, at);
    let state = start_fares(
        rows,
        places_of(lines) as u8,
        number_at(lines, FARES_FLAG - KIND_LINES),
        legs.as_slice(),
        members.as_slice(),
        stops.as_slice(),
    );
    TableLines {
        state,
        left: set_count(members.len() as u8),
        last: ArrayVec::new(),
    }
}

impl TableLines {
    // Takes the next line.
    fn take(&mut self, rows: &mut Rows, numbers: &LineNumbers)
        requires { (view : FaresView) × (said : List Said)
            × IsNext view said (map fraction_of numbers.now.items)
            × IsBehindHead view said self.old (costs_of rows.old.items) }
        ensures { (view : FaresView) (said : List Said)
            → IsNext view said (map fraction_of numbers.now.items)
            → IsBehindHead view said self.old (costs_of rows.old.items)
            → IsBehindHead view (said ++ Numbers (map fraction_of numbers.now.items) ∷ [])
            self.new (costs_of rows.new.items) }
    {
        if self.left == 0 {
            gather(&mut self.last, numbers);
        } else {
            let row: ArrayVec<i128, MOST_NUMBERS> = whole_row(&numbers.as_slice()[1..]);
            take_set(&mut self.state, rows, row.as_slice());
            self.left -= 1;
        }
    }

    // The verdict, once all lines before `end` have come.
    fn verdict(&self, rows: &Rows) -> Verdict
        requires { (view : FaresView) × (said : List Said) × IsWhole view
            × (fares_said view ≡ said ++ says [] ∷ [])
            × IsBehindHead view said self.now (costs_of rows.now.items) }
        ensures { (view : FaresView) (said : List Said) → IsWhole view
            → fares_said view ≡ said ++ says [] ∷ []
            → IsBehindHead view said self.now (costs_of rows.now.items)
            → IsVerdictOf (rules_of_fares view) result }
    {
        let route: ArrayVec<i128, RIDER_ROOM> = row_at(self.last.as_slice(), FARES_ROUTE);
        end_fares(
            &self.state,
            rows,
            route.as_slice(),
            self.last[FARES_FARES].as_slice(),
        )
    }
}
