// The fields of bodies, and what may be wrong with one.
ghost use Rattle.std.specs.Prelude.{◌≡◌};
ghost use Rattle.body_fields.specs.Fields.{field_text};

/// A field of a body.
///
/// Those of a creation or of a case come first, in the order in which they are tested: each kind has `Kind`, `Title` and `Members`, then a rent has `Rooms` and `Rent`,
/// goods have `Goods` and `Limit`, and fares have `Places`, `Flag` and `Legs`. A creation ends with `Deadline` and `Tag`, a case with `Bids`, after which a proposal has
/// `Owners`. A bid has `Turn`, and then `Values` or `Place`; a withdrawal has `Turn`. A whole number has to be written as one: `1.0`, `1e2` and `-0` don't count, and
/// neither does 2^64.
#[derive(Clone, Copy, Debug, PartialEq, Eq)]
pub enum FieldName {
    /// The text `rent`, `goods` or `fares`, in a body that is a JSON object.
    Kind,
    /// A name.
    Title,
    /// A list of the members' names.
    Members,
    /// A list of as many names as there are members.
    Rooms,
    /// The rent in cents.
    Rent,
    /// A list of the goods' names.
    Goods,
    /// The most steps that a search may take. If the field is missing, the usual limit holds; `null` does not count as missing.
    Limit,
    /// A list of the places' names.
    Places,
    /// The flag fall in cents.
    Flag,
    /// A row of legs from the origin and one from each place: the leg to each place in cents. From a place to itself it is 0.
    Legs,
    /// A timestamp, not before 1970: the end of bidding.
    Deadline,
    /// 16 to 64 digits, lower-case letters and hyphens.
    Tag,
    /// A list with an entry per member, in the order of the members: `null`, or the member's bid.
    Bids,
    /// A list with an entry per good: the number of the member who is to own it, who must have bid.
    Owners,
    /// A whole number, which says which of the member's turns this is.
    Turn,
    /// What each room is worth to the member in cents, or each good in points.
    Values,
    /// The place, from 1, at which the member gets off.
    Place,
}

impl FieldName {
    /// The field's key in the body.
    pub fn name(self) -> &'static str
        ensures { result.now ≡ field_text self }
    {
        match self {
            FieldName::Kind => "kind",
            FieldName::Title => "title",
            FieldName::Members => "members",
            FieldName::Rooms => "rooms",
            FieldName::Rent => "rent",
            FieldName::Goods => "goods",
            FieldName::Limit => "limit",
            FieldName::Places => "places",
            FieldName::Flag => "flag",
            FieldName::Legs => "legs",
            FieldName::Deadline => "deadline",
            FieldName::Tag => "tag",
            FieldName::Bids => "bids",
            FieldName::Owners => "owners",
            FieldName::Turn => "turn",
            FieldName::Values => "values",
            FieldName::Place => "place",
        }
    }
}

/// What is wrong with a body.
#[derive(Clone, Copy, Debug, PartialEq, Eq)]
pub enum BodyFault {
    /// It is not a JSON text.
    Json,
    /// The field of this name breaks its rule, and none before it does.
    Field { name: FieldName },
}
