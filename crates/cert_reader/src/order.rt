// The forms of lines in their order, and what a line leaves open about the lines after it.
ghost use Rattle.std.specs.Prelude.{◌≡◌, ◌+◌, ◌-◌, ◌^◌, ◌<◌, ◌≤◌, List, length, map, slice_index_or, ◌↔◌, IsTrue, MatchOption};
ghost use Rattle.std.specs.Bool.{MatchBool};
ghost use Rattle.bid_rules.specs.declared.limits.TheConstants.{MOST_GOODS, MOST_MEMBERS, MOST_PLACES, MOST_RIDERS};
ghost use Rattle.split_frac.specs.Frac.{fraction_of};
ghost use Rattle.cert_reader.specs.declared.forms.Counts.{Counts};
ghost use Rattle.cert_reader.specs.declared.forms.Counts.TheVariants as count;
ghost use Rattle.cert_reader.specs.declared.limits.TheConstants.{MOST_CHOICES, MOST_LINES, MOST_NUMBERS};
ghost use Rattle.cert_reader.specs.declared.places.TheConstants.{FARES_END, FARES_LEGS, GOODS_END, GOODS_TREE, GOODS_VALUES, KIND_LINE, RENT_END, RENT_VALUES};
ghost use Rattle.cert_reader.specs.Forms.{AreInRange, Line, Tree, fares_forms, forms_of, fractions_of, goods_forms, led_by, numbers_of, pair_forms, rent_forms};
ghost use Rattle.cert_reader.specs.Order.{AgreeUpTo, IsLineOf, choice_count, choice_of, fares_head, fares_tail, form_in, goods_head, goods_tail, rent_head, rent_tail};
ghost use Rattle.cert_reader.specs.Sets.{starts};
ghost use Rattle.cert_reader.specs.Text.{Numbers, Said};

use crate::forms::{Counts, LineForm, Word};
use crate::limits::{KINDS, PAIR_LINES};
use crate::line::{LineNumbers, read_line};
use crate::places::{
    FARES_AT, FARES_END, FARES_FARES, FARES_LEGS, FARES_PLACES, FARES_RIDERS, FARES_ROUTE,
    FARES_SETS, GOODS_COUNT, GOODS_END, GOODS_LIMIT, GOODS_OWNERS, GOODS_PLAYERS, GOODS_STEPS,
    GOODS_TREE, GOODS_VALUES, KIND_LINE, PAIR_GOODS, PAIR_OTHER_VALUES, PAIR_SHARES, PAIR_TOTAL,
    PAIR_VALUES, PAIR_WEIGHTS, PAIR_WHO, RENT_END, RENT_LEFT, RENT_MEMBERS, RENT_PRICES,
    RENT_RANKS, RENT_RIGHT, RENT_ROOMS, RENT_VALUES, RENT_WALKS,
};
use bid_rules::limits::{MOST_GOODS, MOST_MEMBERS, MOST_PLACES, MOST_RIDERS, PAIR};

/// How many places the routes of a set of riders may start from. The line of the set has a cost for each.
pub fn start_count(riders: u8, set: u32) -> usize
    requires { riders ≤ MOST_RIDERS }
    ensures value { result ≡ length (starts riders set) }
    ensures small { result ≤ riders + 1 }
{
    let mut count = 1;
    for bit in 0..riders {
        if (set >> bit) % 2 == 0 {
            count += 1;
        }
    }
    count
}

// A word and this many whole numbers.
fn numbers(word: Word, count: u8) -> LineForm
    ensures form { Line result ≡ numbers_of word count }
    ensures count { result.count ≡ count }
{
    LineForm {
        word,
        lead: None,
        count: usize::from(count),
        whole: true,
    }
}

// A word and this many fractions.
fn fractions(word: Word, count: u8) -> LineForm
    ensures form { Line result ≡ fractions_of word count }
    ensures count { result.count ≡ count }
{
    LineForm {
        word,
        lead: None,
        count: usize::from(count),
        whole: false,
    }
}

// A word and this many whole numbers, the first of which is fixed.
fn led(word: Word, lead: u64, count: usize) -> LineForm
    ensures form { Line result ≡ led_by word lead count }
    ensures count { result.count ≡ count }
{
    LineForm {
        word,
        lead: Some(lead),
        count,
        whole: true,
    }
}

// The first lines of a rent.
fn rent_head_form(members: u8, index: usize) -> LineForm
    requires { index < RENT_VALUES }
    ensures form { slice_index_or (rent_head members) index Tree ≡ Line result }
    ensures short { result.count ≤ 1 }
{
    match index {
        0 => led(Word::Fairsplit, 1, 1),
        KIND_LINE => numbers(Word::KindRent, 0),
        RENT_MEMBERS => led(Word::Members, u64::from(members), 1),
        _ => numbers(Word::Rent, 1),
    }
}

// The last lines of a rent.
fn rent_tail_form(members: u8, index: usize) -> LineForm
    requires { index ≤ RENT_END }
    ensures form { slice_index_or (rent_tail members) index Tree ≡ Line result }
    ensures short { result.count ≤ members }
{
    match index {
        RENT_ROOMS => numbers(Word::Rooms, members),
        RENT_LEFT => numbers(Word::Left, members),
        RENT_RIGHT => numbers(Word::Right, members),
        RENT_WALKS => numbers(Word::Walks, members),
        RENT_RANKS => numbers(Word::Ranks, members),
        RENT_PRICES => fractions(Word::Prices, members),
        _ => numbers(Word::End, 0),
    }
}

// A line of a rent.
fn rent_form(members: u8, index: usize) -> LineForm
    requires members { members ≤ MOST_MEMBERS }
    requires index { index < length (rent_forms members) }
    ensures form { slice_index_or (rent_forms members) index Tree ≡ Line result }
    ensures short { result.count ≤ MOST_NUMBERS }
{
    if index < RENT_VALUES {
        return rent_head_form(members, index);
    }
    let rooms = RENT_VALUES + members as usize;
    if index < rooms {
        return numbers(Word::Values, members);
    }
    rent_tail_form(members, index - rooms)
}

// The first lines of goods.
fn goods_head_form(players: u8, goods: u8, index: usize) -> LineForm
    requires { index < GOODS_VALUES }
    ensures form { slice_index_or (goods_head players goods) index Tree ≡ Line result }
    ensures short { result.count ≤ players + 1 }
{
    match index {
        0 => led(Word::Fairsplit, 1, 1),
        KIND_LINE => numbers(Word::KindGoods, 0),
        GOODS_PLAYERS => led(Word::Players, u64::from(players), 1),
        GOODS_COUNT => led(Word::Goods, u64::from(goods), 1),
        GOODS_LIMIT => numbers(Word::Limit, 1),
        _ => numbers(Word::Who, players),
    }
}

// The last lines of goods except the tree.
fn goods_tail_form(goods: u8, index: usize) -> LineForm
    requires index { index ≤ GOODS_END }
    requires line { index ≡ GOODS_TREE → ⊥ }
    ensures form { slice_index_or (goods_tail goods) index Tree ≡ Line result }
    ensures short { result.count ≤ goods + 1 }
{
    match index {
        GOODS_OWNERS => numbers(Word::Owners, goods),
        GOODS_STEPS => numbers(Word::Steps, 1),
        _ => numbers(Word::End, 0),
    }
}

// A line of goods except the tree.
fn goods_form(players: u8, goods: u8, index: usize) -> LineForm
    requires players { players ≤ MOST_MEMBERS }
    requires goods { goods ≤ MOST_GOODS }
    requires index { index < length (goods_forms players goods) }
    requires line { index ≡ GOODS_VALUES + players + GOODS_TREE → ⊥ }
    ensures form { slice_index_or (goods_forms players goods) index Tree ≡ Line result }
    ensures short { result.count ≤ MOST_NUMBERS }
{
    if index < GOODS_VALUES {
        return goods_head_form(players, goods, index);
    }
    let owners = GOODS_VALUES + players as usize;
    if index < owners {
        return numbers(Word::Values, goods);
    }
    goods_tail_form(goods, index - owners)
}

// The first lines of fares.
fn fares_head_form(riders: u8, places: u8, index: usize) -> LineForm
    requires { index < FARES_LEGS }
    ensures form { slice_index_or (fares_head riders places) index Tree ≡ Line result }
    ensures short { result.count ≤ 1 }
{
    match index {
        0 => led(Word::Fairsplit, 1, 1),
        KIND_LINE => numbers(Word::KindFares, 0),
        FARES_RIDERS => led(Word::Riders, u64::from(riders), 1),
        FARES_PLACES => led(Word::Places, u64::from(places), 1),
        _ => numbers(Word::Flag, 1),
    }
}

// The last lines of fares.
fn fares_tail_form(riders: u8, index: usize) -> LineForm
    requires { index ≤ FARES_END }
    ensures form { slice_index_or (fares_tail riders) index Tree ≡ Line result }
    ensures short { result.count ≤ riders }
{
    match index {
        FARES_ROUTE => numbers(Word::Route, riders),
        FARES_FARES => fractions(Word::Fares, riders),
        _ => numbers(Word::End, 0),
    }
}

/// How many sets of riders there are, not counting the empty one.
pub fn set_count(riders: u8) -> u32
    requires { riders ≤ MOST_RIDERS }
    ensures { result ≡ 2 ^ riders - 1 }
{
    (1 << riders) - 1
}

// A line of fares.
fn fares_form(riders: u8, places: u8, index: usize) -> LineForm
    requires riders { riders ≤ MOST_RIDERS }
    requires places { places ≤ MOST_PLACES }
    requires index { index < length (fares_forms riders places) }
    ensures form { slice_index_or (fares_forms riders places) index Tree ≡ Line result }
    ensures short { result.count ≤ MOST_NUMBERS }
{
    if index < FARES_LEGS {
        return fares_head_form(riders, places, index);
    }
    let who = FARES_LEGS + 1 + places as usize;
    if index < who {
        return numbers(Word::Legs, places);
    }
    if index == who {
        return numbers(Word::Who, riders);
    }
    if index == who + FARES_AT {
        return numbers(Word::At, riders);
    }
    let sets = who + FARES_SETS;
    let route = sets + set_count(riders) as usize;
    if index < route {
        let set = (index - sets) as u32 + 1;
        return led(Word::Set, set as u64, start_count(riders, set) + 1);
    }
    fares_tail_form(riders, index - route)
}

// A line of the text of a pair.
fn pair_form(goods: u8, index: usize) -> LineForm
    requires goods { goods ≤ MOST_GOODS }
    requires index { index < length (pair_forms goods) }
    ensures form { slice_index_or (pair_forms goods) index Tree ≡ Line result }
    ensures short { result.count ≤ MOST_NUMBERS }
{
    match index {
        0 => led(Word::FairsplitPair, 1, 1),
        PAIR_GOODS => led(Word::Goods, u64::from(goods), 1),
        PAIR_WHO => numbers(Word::Who, PAIR),
        PAIR_VALUES | PAIR_OTHER_VALUES => numbers(Word::Values, goods),
        PAIR_SHARES => fractions(Word::Shares, goods),
        PAIR_WEIGHTS => numbers(Word::Weights, PAIR),
        PAIR_TOTAL => fractions(Word::Total, 1),
        _ => numbers(Word::End, 0),
    }
}

// Whether the line of a tree is at a place, counted from 0.
pub(crate) fn is_tree(counts: Counts, index: usize) -> bool
    requires { index < length (forms_of counts) }
    ensures { IsTrue result ↔ form_in counts index ≡ Tree }
{
    match counts {
        Counts::Rent { .. } => false,
        Counts::Goods { players, .. } => index == GOODS_VALUES + players as usize + GOODS_TREE,
        Counts::Fares { .. } => false,
        Counts::Pair { .. } => false,
    }
}

// The form of a line of numbers, counted from 0.
pub(crate) fn form_at(counts: Counts, index: usize) -> LineForm
    requires counts { AreInRange counts }
    requires index { index < length (forms_of counts) }
    requires line { form_in counts index ≡ Tree → ⊥ }
    ensures form { form_in counts index ≡ Line result }
    ensures short { result.count ≤ MOST_NUMBERS }
{
    match counts {
        Counts::Rent { members } => rent_form(members, index),
        Counts::Goods { players, goods } => goods_form(players, goods, index),
        Counts::Fares { riders, places } => fares_form(riders, places, index),
        Counts::Pair { goods } => pair_form(goods, index),
    }
}

// How many lines a text with these counts has.
pub(crate) fn line_count(counts: Counts) -> usize
    requires { AreInRange counts }
    ensures value { result ≡ length (forms_of counts) }
    ensures few { result ≤ MOST_LINES }
    ensures some { 4 < result }
{
    match counts {
        Counts::Rent { members } => RENT_VALUES + members as usize + RENT_END + 1,
        Counts::Goods { players, .. } => GOODS_VALUES + players as usize + GOODS_END + 1,
        Counts::Fares { riders, places } => {
            let legs = places as usize + 1;
            let sets = set_count(riders) as usize;
            FARES_LEGS + legs + FARES_SETS + sets + FARES_END + 1
        }
        Counts::Pair { .. } => PAIR_LINES,
    }
}

// How many possibilities the line at a place leaves open once the lines before it are known.
fn choices(index: usize, known: Counts) -> u8
    ensures value { result ≡ choice_count index known }
    ensures small { result ≤ MOST_CHOICES }
{
    match (index, known) {
        (PAIR_GOODS, Counts::Pair { .. }) => MOST_GOODS,
        (KIND_LINE, _) => KINDS,
        (RENT_MEMBERS, Counts::Rent { .. }) => MOST_MEMBERS,
        (GOODS_PLAYERS, Counts::Goods { .. }) => MOST_MEMBERS,
        (FARES_RIDERS, Counts::Fares { .. }) => MOST_RIDERS,
        (GOODS_COUNT, Counts::Goods { .. }) => MOST_GOODS,
        (FARES_PLACES, Counts::Fares { .. }) => MOST_PLACES,
        _ => 1,
    }
}

// The least counts of a kind.
fn chosen_kind(choice: u8) -> Counts
    ensures { result ≡ choice_of KIND_LINE (count.Rent 1) choice }
{
    match choice {
        0 => Counts::Rent { members: 1 },
        1 => Counts::Goods {
            players: 1,
            goods: 1,
        },
        _ => Counts::Fares {
            riders: 1,
            places: 1,
        },
    }
}

// The counts that one of these possibilities gives.
fn chosen(index: usize, known: Counts, choice: u8) -> Counts
    requires { choice < MOST_CHOICES }
    ensures { result ≡ choice_of index known choice }
{
    match (index, known) {
        (PAIR_GOODS, Counts::Pair { .. }) => Counts::Pair { goods: choice + 1 },
        (KIND_LINE, _) => chosen_kind(choice),
        (RENT_MEMBERS, Counts::Rent { .. }) => Counts::Rent {
            members: choice + 1,
        },
        (GOODS_PLAYERS, Counts::Goods { .. }) => Counts::Goods {
            players: choice + 1,
            goods: 1,
        },
        (FARES_RIDERS, Counts::Fares { .. }) => Counts::Fares {
            riders: choice + 1,
            places: 1,
        },
        (GOODS_COUNT, Counts::Goods { players, .. }) => Counts::Goods {
            players,
            goods: choice + 1,
        },
        (FARES_PLACES, Counts::Fares { riders, .. }) => Counts::Fares {
            riders,
            places: choice + 1,
        },
        _ => known,
    }
}

// The numbers of the line, if it has the form of its place.
fn read_at(line: &[u8], index: usize, counts: Counts, numbers: &mut LineNumbers) -> bool
    requires counts { AreInRange counts }
    requires index { index < length (forms_of counts) }
    requires line { form_in counts index ≡ Tree → ⊥ }
    ensures { MatchBool result
        (IsLineOf (form_in counts index) (Numbers (map fraction_of numbers.new.items)) line.now)
        ((said : Said) → IsLineOf (form_in counts index) said line.now → ⊥) }
{
    read_line(line, form_at(counts, index), numbers)
}

// Counts that agree with those known so far and for which the line has the form of its place, and the numbers of the line.
pub(crate) fn settle(
    line: &[u8],
    index: usize,
    known: Counts,
    numbers: &mut LineNumbers,
) -> Option<Counts>
    requires known { AreInRange known }
    requires index { index < length (forms_of known) }
    requires line { form_in known index ≡ Tree → ⊥ }
    ensures { MatchOption result
        ((counts : Counts) (said : Said) → AreInRange counts → AgreeUpTo index known counts
        → IsLineOf (form_in counts index) said line.now → ⊥)
        (λ counts.
        AreInRange counts × AgreeUpTo index known counts × (index < length (forms_of counts))
        × IsLineOf (form_in counts index) (Numbers (map fraction_of numbers.new.items)) line.now) }
{
    for choice in 0..choices(index, known) {
        let counts = chosen(index, known, choice);
        if read_at(line, index, counts, numbers) {
            return Some(counts);
        }
    }
    None
}
