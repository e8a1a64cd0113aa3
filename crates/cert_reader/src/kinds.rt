// The kinds of certificates.
ghost use Rattle.std.specs.Prelude.{◌≡◌};
ghost use Rattle.cert_reader.specs.Kinds.{kind_number};

/// What a certificate divides.
#[derive(Clone, Copy, Debug, PartialEq, Eq)]
pub enum Kind {
    Rent,
    Goods,
    Fares,
}

impl Kind {
    /// The number with which a piece gives the kind: 1 for a rent, 2 for goods, 3 for
    /// fares.
    pub fn number(self) -> u8
        ensures { result ≡ kind_number self }
    {
        match self {
            Kind::Rent => 1,
            Kind::Goods => 2,
            Kind::Fares => 3,
        }
    }
}
