// The words of lines, the forms of lines, and the counts that the first lines of a text give.
ghost use Rattle.std.specs.Prelude.{◌≡◌};
ghost use Rattle.cert_reader.specs.Words.{word_text};

/// The word with which a line begins. The line of the kind has no numbers, so its word holds the kind too. The first word of the text of a pair holds `pair`.
#[derive(Clone, Copy, Debug, PartialEq, Eq)]
pub enum Word {
    Fairsplit,
    FairsplitPair,
    KindRent,
    KindGoods,
    KindFares,
    Members,
    Players,
    Riders,
    Goods,
    Places,
    Rent,
    Limit,
    Flag,
    Values,
    Legs,
    Who,
    At,
    Set,
    Rooms,
    Left,
    Right,
    Walks,
    Ranks,
    Prices,
    Owners,
    Steps,
    Short,
    Tree,
    Route,
    Fares,
    Shares,
    Weights,
    Total,
    End,
}

impl Word {
    /// The word as a text has it.
    pub fn as_str(self) -> &'static str
        ensures { result.now ≡ word_text self }
    {
        match self {
            Word::Fairsplit => "fairsplit",
            Word::FairsplitPair => "fairsplit pair",
            Word::KindRent => "kind rent",
            Word::KindGoods => "kind goods",
            Word::KindFares => "kind fares",
            Word::Members => "members",
            Word::Players => "players",
            Word::Riders => "riders",
            Word::Goods => "goods",
            Word::Places => "places",
            Word::Rent => "rent",
            Word::Limit => "limit",
            Word::Flag => "flag",
            Word::Values => "values",
            Word::Legs => "legs",
            Word::Who => "who",
            Word::At => "at",
            Word::Set => "set",
            Word::Rooms => "rooms",
            Word::Left => "left",
            Word::Right => "right",
            Word::Walks => "walks",
            Word::Ranks => "ranks",
            Word::Prices => "prices",
            Word::Owners => "owners",
            Word::Steps => "steps",
            Word::Short => "short",
            Word::Tree => "tree",
            Word::Route => "route",
            Word::Fares => "fares",
            Word::Shares => "shares",
            Word::Weights => "weights",
            Word::Total => "total",
            Word::End => "end",
        }
    }
}

/// The form of a line of numbers.
#[derive(Clone, Copy, Debug, PartialEq, Eq)]
pub struct LineForm {
    /// The word in front.
    pub word: Word,
    /// The first number, if the text before the line fixes it.
    pub lead: Option<u64>,
    /// How many numbers follow the word, including the first.
    pub count: usize,
    /// Whether they are whole numbers. If not, they may be fractions.
    pub whole: bool,
}

/// What the first lines of a text count, which fixes the lines that follow.
#[derive(Clone, Copy, Debug, PartialEq, Eq)]
pub enum Counts {
    /// A text of kind rent.
    Rent {
        /// How many members and rooms, 1 to `MOST_MEMBERS`.
        members: u8,
    },
    /// A text of kind goods.
    Goods {
        /// How many players, 1 to `MOST_MEMBERS`.
        players: u8,
        /// How many goods, 1 to `MOST_GOODS`.
        goods: u8,
    },
    /// A text of kind fares.
    Fares {
        /// How many riders, 1 to `MOST_RIDERS`.
        riders: u8,
        /// How many places, 1 to `MOST_PLACES`.
        places: u8,
    },
    /// The text of a pair: what adjusted winner gives two players.
    Pair {
        /// How many goods, 1 to `MOST_GOODS`.
        goods: u8,
    },
}
