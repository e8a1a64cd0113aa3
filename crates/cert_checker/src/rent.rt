// How the judge takes the lines of a certificate of a rent: it gathers them, and asks the rules once all have come.
ghost use Rattle.std.specs.Prelude.{◌≡◌, ◌-◌, ◌<◌, ◌++◌, ◌∷◌, [], length};
ghost use Rattle.cert_reader.specs.declared.forms.Counts.TheVariants as count;
ghost use Rattle.cert_reader.specs.Forms.{AreCounts, rent_forms};
ghost use Rattle.cert_reader.specs.Gathered.{text_said};
ghost use Rattle.cert_reader.specs.Text.{CanSayAll};
ghost use Rattle.cert_checker.specs.Lines.{GivesOf};
ghost use Rattle.cert_checker.specs.declared.rent.TheConstants.{LIST_LINES, RENT_LINES};

use crate::gathering::gather;
use arrayvec::ArrayVec;
use bid_rules::limits::MEMBER_ROOM;
use cert_reader::places::{KIND_LINES, RENT_END, RENT_VALUES};
use cert_reader::{LineNumbers, rent_text};
use rent_rules::check_rent;
use rule_verdicts::Verdict;

/// The lines that aren't rows of values: `members`, `rent`, and six lists after the values.
const LIST_LINES: usize = RENT_VALUES - KIND_LINES + RENT_END;
/// The most lines between the two that say the kind and `end`.
const RENT_LINES: usize = LIST_LINES + MEMBER_ROOM;

/// The lines of a rent so far, after the two that say the kind.
#[derive(Drop)]
pub(crate) struct RentLines {
    lines: ArrayVec<LineNumbers, RENT_LINES>,
}

impl RentLines {
    // None so far. Never inlined: it builds a large value, whose stack would otherwise be held for the whole check.
    #[inline(never)]
    pub(crate) fn new() -> RentLines
        ensures { result.lines.items ≡ [] }
    {
        RentLines {
            lines: ArrayVec::new(),
        }
    }

    // Takes the next line.
    pub(crate) fn take(&mut self, numbers: &LineNumbers)
        requires { length self.old.lines.items < RENT_LINES }
        ensures { self.new.lines.items ≡ self.old.lines.items ++ numbers.now ∷ [] }
    {
        gather(&mut self.lines, numbers);
    }

    // The verdict, once all lines before `end` have come.
    pub(crate) fn verdict(&self) -> Verdict
        requires counts { AreCounts (count.Rent (length self.now.lines.items - LIST_LINES)) }
        requires lines { CanSayAll (rent_forms (length self.now.lines.items - LIST_LINES))
            (text_said self.now.lines.items) }
        ensures { GivesOf (count.Rent (length self.now.lines.items - LIST_LINES))
            (text_said self.now.lines.items) result }
    {
        let members = (self.lines.len() - LIST_LINES) as u8;
        check_rent(&rent_text(members, self.lines.as_slice()))
    }
}
