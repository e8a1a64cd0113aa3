// Builds what the text of a pair says from its lines.
ghost use Rattle.std.specs.Prelude.{◌≡◌, ◌≤◌, [], ◌∷◌, ◌++◌, map};
ghost use Rattle.cert_reader.specs.declared.forms.Counts.TheVariants as count;
ghost use Rattle.cert_reader.specs.Forms.{AreInRange, pair_forms};
ghost use Rattle.cert_reader.specs.Gathered.{line_said};
ghost use Rattle.cert_reader.specs.Pairs.{pair_said, pair_view};
ghost use Rattle.cert_reader.specs.Text.{CanSayAll};
ghost use Rattle.cert_reader.specs.Views.{says};

use crate::line::LineNumbers;
use crate::pair::PairText;
use crate::places::{PAIR_SHARES, PAIR_TOTAL, PAIR_VALUES, PAIR_WEIGHTS, PAIR_WHO};
use crate::rows::{fraction_at, fractions_at, row_at, rows_of};

// What the text of a pair says, once its lines before `end` have been read.
pub(crate) fn pair_text(goods: u8, lines: &[LineNumbers]) -> PairText
    requires goods { AreInRange (count.Pair goods) }
    requires lines { CanSayAll (pair_forms goods) (map line_said lines.now ++ says [] ∷ []) }
    ensures said { pair_said (pair_view result) ≡ map line_said lines.now ++ says [] ∷ [] }
    ensures goods { result.goods ≡ goods }
{
    let who = row_at(lines, PAIR_WHO);
    let values = rows_of(&lines[PAIR_VALUES..PAIR_SHARES]);
    let shares = fractions_at(lines, PAIR_SHARES);
    let weights = row_at(lines, PAIR_WEIGHTS);
    let total = fraction_at(lines, PAIR_TOTAL);
    PairText {
        goods,
        who,
        values,
        shares,
        weights,
        total,
    }
}
