// Builds a certificate from its lines.
ghost use Rattle.std.specs.Prelude.{◌≡◌, ℕ, ◌≤◌, IfOk, length};
ghost use Rattle.cert_reader.specs.declared.forms.Counts.{Counts};
ghost use Rattle.cert_reader.specs.declared.forms.Counts.TheVariants as count;
ghost use Rattle.cert_reader.specs.Forms.{AreCounts, fares_forms, forms_of, goods_forms, rent_forms};
ghost use Rattle.cert_reader.specs.Gathered.{text_said, tree_said, whole_said};
ghost use Rattle.cert_reader.specs.Text.{CanSayAll};
ghost use Rattle.cert_reader.specs.Views.{counts_of, fares_said, fares_view, goods_said, goods_view, rent_said, rent_view, said_of, view_of};

use crate::certificate::{Certificate, FaresText, GoodsText, RentText};
use crate::forms::Counts;
use crate::line::LineNumbers;
use crate::order::set_count;
use crate::places::{
    FARES_AT, FARES_FARES, FARES_FLAG, FARES_LEGS, FARES_SETS, GOODS_LIMIT, GOODS_STEPS,
    GOODS_VALUES, GOODS_WHO, KIND_LINES, RENT_AMOUNT, RENT_LEFT, RENT_PRICES, RENT_RANKS,
    RENT_RIGHT, RENT_VALUES, RENT_WALKS,
};
use crate::rows::{fractions_at, number_at, push_rows, row_at, rows_of};
use crate::table::Table;
use crate::tree::Tree;
use split_base::NoMemory;
use std::alloc::Global;

/// The certificate of a rent from its lines, without the two that say the kind and without `end`. It takes no memory.
pub fn rent_text(members: u8, lines: &[LineNumbers]) -> RentText
    requires counts { AreCounts (count.Rent members) }
    requires lines { CanSayAll (rent_forms members) (text_said lines.now) }
    ensures said { rent_said (rent_view result) ≡ text_said lines.now }
    ensures members { length result.rooms.items ≡ members }
{
    let first = RENT_VALUES - KIND_LINES + members as usize;
    let rent = number_at(lines, RENT_AMOUNT - KIND_LINES);
    let values = rows_of(&lines[RENT_VALUES - KIND_LINES..first]);
    let rooms = row_at(lines, first);
    let left = row_at(lines, first + RENT_LEFT);
    let right = row_at(lines, first + RENT_RIGHT);
    let walks = row_at(lines, first + RENT_WALKS);
    let ranks = row_at(lines, first + RENT_RANKS);
    let prices = fractions_at(lines, first + RENT_PRICES);
    RentText {
        rent,
        values,
        rooms,
        left,
        right,
        walks,
        ranks,
        prices,
    }
}

// The certificate of goods from its lines between the two that say the kind and the tree, and from the marks of its tree. It takes no memory.
pub(crate) fn goods_text(players: u8, goods: u8, lines: &[LineNumbers], marks: Vec<u8>) -> GoodsText
    requires counts { AreCounts (count.Goods players goods) }
    requires lines { CanSayAll (goods_forms players goods) (tree_said lines.now marks.items) }
    ensures said { goods_said (goods_view result) ≡ tree_said lines.now marks.items }
    ensures players { length result.who.items ≡ players }
    ensures goods { result.goods ≡ goods }
{
    let first = GOODS_VALUES - KIND_LINES + players as usize;
    let limit = number_at(lines, GOODS_LIMIT - KIND_LINES);
    let who = row_at(lines, GOODS_WHO - KIND_LINES);
    let values = rows_of(&lines[GOODS_VALUES - KIND_LINES..first]);
    let owners = row_at(lines, first);
    let steps = number_at(lines, first + GOODS_STEPS);
    GoodsText {
        goods,
        limit,
        who,
        values,
        owners,
        steps,
        tree: Tree::new(marks),
    }
}

// The certificate of fares from its lines, without the two that say the kind and without `end`. Memory is taken only for the table.
pub(crate) fn fares_text(
    alloc: Global,
    riders: u8,
    places: u8,
    lines: &[LineNumbers],
) -> Result<FaresText, NoMemory>
    requires counts { AreCounts (count.Fares riders places) }
    requires lines { CanSayAll (fares_forms riders places) (text_said lines.now) }
    ensures said { IfOk result (λ text. fares_said (fares_view text) ≡ text_said lines.now) }
    ensures riders { IfOk result (λ text. length text.who.items ≡ riders) }
    ensures places { IfOk result (λ text. text.places ≡ places) }
{
    let first = FARES_LEGS - KIND_LINES + 1 + places as usize;
    let sets = first + FARES_SETS;
    let last = sets + set_count(riders) as usize;
    let mut numbers = Vec::new(alloc);
    push_rows(&mut numbers, &lines[sets..last])?;
    let flag = number_at(lines, FARES_FLAG - KIND_LINES);
    let legs = rows_of(&lines[FARES_LEGS - KIND_LINES..first]);
    let who = row_at(lines, first);
    let at = row_at(lines, first + FARES_AT);
    let route = row_at(lines, last);
    let fares = fractions_at(lines, last + FARES_FARES);
    Ok(FaresText {
        places,
        flag,
        legs,
        who,
        at,
        table: Table::new(numbers),
        route,
        fares,
    })
}

// The certificate from its lines, without the two that say the kind and without `end`. The marks of the tree of goods come separately.
pub(crate) fn certificate_of(
    alloc: Global,
    counts: Counts,
    lines: &[LineNumbers],
    marks: Vec<u8>,
) -> Result<Certificate, NoMemory>
    requires counts { AreCounts counts }
    requires lines { CanSayAll (forms_of counts) (whole_said lines.now marks.items) }
    ensures said { IfOk result (λ certificate.
        said_of (view_of certificate) ≡ whole_said lines.now marks.items) }
    ensures counts { IfOk result (λ certificate. counts_of (view_of certificate) ≡ counts) }
{
    match counts {
        Counts::Rent { members } => Ok(Certificate::Rent(rent_text(members, lines))),
        Counts::Goods { players, goods } => Ok(Certificate::Goods(goods_text(
            players, goods, lines, marks,
        ))),
        Counts::Fares { riders, places } => Ok(Certificate::Fares(fares_text(
            alloc, riders, places, lines,
        )?)),
        Counts::Pair { .. } => unreachable!(),
    }
}
