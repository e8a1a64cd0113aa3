// A search in slices: it starts, goes on for some steps at a time, and ends.
ghost use Rattle.std.specs.Prelude.{◌≡◌};
ghost use Rattle.bid_rules.specs.Goods.{IsAllocation, IsValidGoodsCase};
ghost use Rattle.nash_bounds.specs.Lanes.{IsLaneTable};

use crate::bytes::Bytes;
use crate::ending::{Ending, Found, Owners};
use crate::estate::Estate;
use crate::logs::RoughLogs;
use crate::matching::{greatest_matching, short_players};
use crate::players::OwnerList;
use crate::space::{Rooms, Space, cut_up};
use crate::start::start_draft;
use crate::state::{Progress, Shown, State, read, write};
use crate::stops::Stop;
use crate::tables::{allocated, drafted, printed, table_of};
use crate::text::{Said, put_text};
use crate::tree::Tree;
use crate::twins::Twins;
use crate::walk::Walk;
use arrayvec::ArrayVec;
use bid_rules::GoodsCase;
use bid_rules::limits::MEMBER_ROOM;
use nash_bounds::{LaneTable, players};
use std::marker::Model;

/// A search for the best division of an estate, and for a certificate that shows it.
#[derive(Drop)]
pub struct Search<'a> {
    estate: Estate,
    logs: RoughLogs,
    limit: u32,
    // The players who show how many can have points.
    short: ArrayVec<u8, MEMBER_ROOM>,
    walk: Walk<'a>,
    progress: Progress,
    // Where the state is left between two slices.
    state: &'a mut [u8],
    text: Bytes<'a>,
}

impl<'a> Model for Search<'a> {
    ghost use Rattle.bid_rules.specs.declared.goods.GoodsCase.{GoodsCase};

    ghost Value = { GoodsCase };

    ghost view = { λ search. search.estate };
}

// The players who show how many can have points.
fn short_of(case: &GoodsCase, table: &LaneTable) -> ArrayVec<u8, MEMBER_ROOM>
    requires case { IsValidGoodsCase case.now }
    requires table { IsLaneTable case.now table.now }
{
    let rows = table.rows.as_slice();
    let matched = greatest_matching(rows, players(case));
    short_players(rows, players(case), &matched)
}

// The owners of a good division, by place in the search order.
fn first_owners(case: &GoodsCase, table: &LaneTable) -> OwnerList
    requires case { IsValidGoodsCase case.now }
    requires table { IsLaneTable case.now table.now }
    ensures { IsAllocation case.now result.items }
{
    let rows = table.rows.as_slice();
    let matched = greatest_matching(rows, players(case));
    let draft = start_draft(rows, players(case), &matched);
    drafted(case, &draft)
}

impl<'a> Search<'a> {
    ghost use Rattle.estate_search.specs.Endings.{EndsSearch, IsDivision, estate_of};

    /// Starts a search of so many steps at most. The case's own limit is that of the specified search, and does not matter here.
    pub fn start(case: GoodsCase, limit: u32, space: Space<'a>) -> Search<'a>
        requires { IsValidGoodsCase case }
        ensures { result ≡ estate_of case }
    {
        let case = printed(case);
        let table = table_of(&case);
        let owners = first_owners(&case, &table);
        let rooms = cut_up(space);
        let mut search = Search::at(case, table, owners, State::default(), limit, rooms);
        search.begin();
        search
    }

    /// Goes on with a search of the same case and limit from what `pause` has left in this memory.
    pub fn resume(case: GoodsCase, limit: u32, space: Space<'a>) -> Search<'a>
        requires { IsValidGoodsCase case }
        ensures { result ≡ estate_of case }
    {
        let case = printed(case);
        let table = table_of(&case);
        let rooms = cut_up(space);
        let state = read(rooms.state);
        let owners = allocated(&case, state.answer.as_slice());
        Search::at(case, table, owners, state, limit, rooms)
    }

    // A search that has come to a state.
    fn at(
        case: GoodsCase,
        table: LaneTable,
        owners: OwnerList,
        state: State,
        limit: u32,
        rooms: Rooms<'a>,
    ) -> Search<'a>
        requires case { IsValidGoodsCase case }
        requires table { IsLaneTable case table }
        requires owners { IsAllocation case owners.items }
        ensures { result ≡ case }
    {
        let short = short_of(&case, &table);
        let tree = Tree::new(rooms.tree, state.reach);
        let twins = Twins::new(rooms.twins, state.kept);
        Search {
            estate: Estate::new(case, table, owners),
            logs: RoughLogs::new(),
            limit,
            short,
            walk: Walk::new(tree, twins, state.path, limit),
            progress: state.progress,
            state: rooms.state,
            text: Bytes::new(rooms.text),
        }
    }

    /// Leaves the state of the search in its memory, so that it can go on later, and gives the case back.
    pub fn pause(self) -> GoodsCase
        ensures { result ≡ self.entry }
    {
        let Search {
            estate,
            logs: _,
            limit: _,
            short: _,
            walk,
            progress,
            state,
            text: _,
        } = self;
        let _ = write(state, &progress, &walk, estate.answer().owners.as_slice());
        estate.into_case()
    }

    // Begins a walk.
    fn begin(&mut self)
        ensures { self.new ≡ self.old }
    {
        let begun = self.walk.begin(&self.estate, &self.logs);
        self.progress.goes_on = begun.is_ok();
        self.progress.stop = begun.err();
    }

    /// How many steps were made.
    pub fn steps(&self) -> u32 {
        self.progress.before.saturating_add(self.walk.path.steps)
    }

    /// The owners of the best division found so far.
    pub fn owners(&self) -> Owners
        ensures { IsDivision self.now result.items }
    {
        self.estate.answer_by_good()
    }

    /// Goes on until so many further steps were made, or the search is over. Whether it is over.
    pub fn advance(&mut self, steps: u32) -> bool
        ensures { self.new ≡ self.old }
    {
        let end = self.steps().saturating_add(steps);
        for _ in 0..u64::MAX {
            if !self.progress.goes_on || self.steps() >= end {
                break;
            }
            self.turn();
        }
        !self.progress.goes_on
    }

    // Goes on to the next prefix, or to the next walk.
    fn turn(&mut self)
        ensures { self.new ≡ self.old }
    {
        if self.walk.is_over() {
            self.finish();
        } else if let Err(stop) = self.walk.turn(&mut self.estate, &self.logs) {
            self.progress.stop = Some(stop);
            self.progress.goes_on = false;
        }
    }

    // Ends a walk. What was closed before a better division was found may be more than need be, so then it is walked once more.
    fn finish(&mut self)
        ensures { self.new ≡ self.old }
    {
        let again = self.walk.path.improved && self.progress.before == 0;
        self.progress.shown = self.show();
        if again {
            self.progress.before = self.walk.path.steps;
            self.begin();
        } else {
            self.progress.goes_on = false;
        }
    }

    // Writes the text of a walk that has come to its end.
    fn show(&mut self) -> Option<Shown>
        ensures { self.new ≡ self.old }
    {
        let owners = self.estate.answer_by_good();
        let said = Said {
            case: self.estate.case(),
            limit: self.limit,
            owners: owners.as_slice(),
            steps: self.walk.path.steps,
            short: self.short.as_slice(),
        };
        match put_text(&mut self.text, &said, &self.walk.tree) {
            Ok(()) => Some(Shown {
                steps: self.walk.path.steps,
                size: self.text.len(),
            }),
            Err(_) => None,
        }
    }

    /// The ending of the search; before it is over, that with the best division found so far.
    pub fn end(&self) -> Ending
        ensures { EndsSearch self.now result }
    {
        let owners = self.owners();
        match (self.progress.shown, self.progress.stop) {
            (Some(shown), _) => Ending::Best(Found {
                owners,
                steps: shown.steps,
                size: shown.size,
            }),
            (None, Some(Stop::Steps)) => Ending::OverLimit(owners),
            (None, _) => Ending::TooLong(owners),
        }
    }
}
