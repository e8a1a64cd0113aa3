// The state of a search between two slices, as numbers in lent memory. Whoever lends it may have changed it: a search that goes on from other numbers comes to
// other owners or to a text that is refused, and runs into nothing undefined.
use crate::bytes::Bytes;
use crate::players::OwnerList;
use crate::pricing::FinePrices;
use crate::shares::Fine;
use crate::stops::Stop;
use crate::tree::Reach;
use crate::walk::{Level, Path, Walk};
use crate::words::{Words, put_number, put_owners, put_size, put_word};
use arrayvec::ArrayVec;
use bid_rules::limits::ITEM_ROOM;

/// The text of the last walk that came to its end.
#[derive(Clone, Copy)]
pub(crate) struct Shown {
    /// How many steps its tree has.
    pub(crate) steps: u32,
    /// How many bytes it has.
    pub(crate) size: usize,
}

/// What a search has come to, except for the walk that it is on.
#[derive(Clone, Copy, Default)]
pub(crate) struct Progress {
    /// The steps of the walks before this one.
    pub(crate) before: u32,
    /// The text that stands in the memory for it, if there is one.
    pub(crate) shown: Option<Shown>,
    /// Why the last walk did not come to its end.
    pub(crate) stop: Option<Stop>,
    /// Whether there is more to walk.
    pub(crate) goes_on: bool,
}

/// The state of a search.
#[derive(Default, Drop)]
pub(crate) struct State {
    pub(crate) progress: Progress,
    pub(crate) reach: Reach,
    /// How many prefixes are kept as twins.
    pub(crate) kept: u32,
    pub(crate) path: Path,
    /// The owners of the best division so far, in search order.
    pub(crate) answer: OwnerList,
}

/// Writes the state of a search that has come so far on this walk.
pub(crate) fn write(
    room: &mut [u8],
    progress: &Progress,
    walk: &Walk<'_>,
    answer: &[u8],
) -> Result<(), Stop> {
    let mut bytes = Bytes::new(room);
    write_progress(&mut bytes, progress)?;
    write_reach(&mut bytes, walk.tree.reach())?;
    put_word(&mut bytes, walk.twins.kept())?;
    write_path(&mut bytes, &walk.path)?;
    put_owners(&mut bytes, answer)
}

/// Reads a state.
pub(crate) fn read(room: &[u8]) -> State {
    let mut words = Words::new(room);
    let progress = read_progress(&mut words);
    let reach = read_reach(&mut words);
    let kept = words.next_word();
    let path = read_path(&mut words);
    let answer = words.next_owners();
    State {
        progress,
        reach,
        kept,
        path,
        answer,
    }
}

fn write_progress(bytes: &mut Bytes<'_>, progress: &Progress) -> Result<(), Stop> {
    let (steps, size) = match progress.shown {
        Some(shown) => (shown.steps, shown.size),
        None => (0, 0),
    };
    put_word(bytes, progress.before)?;
    put_word(bytes, steps)?;
    put_size(bytes, size)?;
    put_word(bytes, stop_word(progress.stop))?;
    put_word(bytes, u32::from(progress.goes_on))
}

fn read_progress(words: &mut Words<'_>) -> Progress {
    let before = words.next_word();
    let steps = words.next_word();
    let size = words.next_size();
    let stop = stop_of(words.next_word());
    let goes_on = words.next_bool();
    let shown = if size > 0 {
        Some(Shown { steps, size })
    } else {
        None
    };
    Progress {
        before,
        shown,
        stop,
        goes_on,
    }
}

fn stop_word(stop: Option<Stop>) -> u32 {
    match stop {
        None => 0,
        Some(Stop::Steps) => 1,
        Some(Stop::TooLong) => 2,
    }
}

fn stop_of(word: u32) -> Option<Stop> {
    match word {
        0 => None,
        1 => Some(Stop::Steps),
        _ => Some(Stop::TooLong),
    }
}

fn write_reach(bytes: &mut Bytes<'_>, reach: Reach) -> Result<(), Stop> {
    put_size(bytes, reach.lines)?;
    put_size(bytes, reach.marks)?;
    put_size(bytes, reach.answer)
}

fn read_reach(words: &mut Words<'_>) -> Reach {
    let lines = words.next_size();
    let marks = words.next_size();
    let answer = words.next_size();
    Reach {
        lines,
        marks,
        answer,
    }
}

fn write_path(bytes: &mut Bytes<'_>, path: &Path) -> Result<(), Stop> {
    put_word(bytes, path.steps)?;
    put_word(bytes, u32::from(path.improved))?;
    put_word(bytes, path.asked)?;
    put_word(bytes, path.priced)?;
    put_owners(bytes, path.owners.as_slice())?;
    put_size(bytes, path.levels.len())?;
    for level in path.levels.iter() {
        write_level(bytes, level)?;
    }
    Ok(())
}

fn read_path(words: &mut Words<'_>) -> Path {
    let steps = words.next_word();
    let improved = words.next_bool();
    let asked = words.next_word();
    let priced = words.next_word();
    let owners = words.next_owners();
    let levels = read_levels(words);
    Path {
        steps,
        improved,
        asked,
        priced,
        owners,
        levels,
    }
}

fn read_levels(words: &mut Words<'_>) -> ArrayVec<Level, ITEM_ROOM> {
    let mut levels = ArrayVec::new();
    let count = words.next_size().min(ITEM_ROOM);
    for _ in 0..count {
        let level = read_level(words);
        if !levels.is_full() {
            levels.push(level);
        }
    }
    levels
}

fn write_level(bytes: &mut Bytes<'_>, level: &Level) -> Result<(), Stop> {
    put_word(bytes, u32::from(level.next))?;
    put_word(bytes, u32::from(level.greatest.unwrap_or(0)))?;
    for weight in level.fine {
        put_word(bytes, weight)?;
    }
    put_word(bytes, u32::from(level.prices.is_some()))?;
    put_word(bytes, u32::from(level.states_prices))?;
    write_prices(bytes, &level.prices.unwrap_or_default())
}

fn write_prices(bytes: &mut Bytes<'_>, prices: &FinePrices) -> Result<(), Stop> {
    for rate in prices.rates {
        put_number(bytes, rate)?;
    }
    for fee in prices.fees {
        put_number(bytes, fee)?;
    }
    Ok(())
}

fn read_level(words: &mut Words<'_>) -> Level {
    let next = words.next_byte();
    let greatest = (words.next_word() % 65_536) as u16;
    let fine = read_weights(words);
    let has_prices = words.next_bool();
    let states_prices = words.next_bool();
    let prices = read_prices(words);
    Level {
        next,
        fine,
        greatest: if greatest > 0 { Some(greatest) } else { None },
        prices: if has_prices { Some(prices) } else { None },
        states_prices,
    }
}

fn read_weights(words: &mut Words<'_>) -> Fine {
    let mut fine = Fine::default();
    for weight in fine.iter_mut() {
        *weight = words.next_word();
    }
    fine
}

fn read_prices(words: &mut Words<'_>) -> FinePrices {
    let mut prices = FinePrices::default();
    for rate in prices.rates.iter_mut() {
        *rate = words.next_number();
    }
    for fee in prices.fees.iter_mut() {
        *fee = words.next_number();
    }
    prices
}
