// How a name is written in a line, with its number in front.
ghost use Rattle.std.specs.Prelude.{Some};
ghost use Rattle.split_frac.specs.Texts.{numbered_name};

use std::fmt;

/// The number and the name of a person or a thing, as people read them: `1 Ann`.
#[derive(Clone, Copy)]
pub struct Named<'a> {
    /// The number, from 1.
    pub number: u8,
    /// The name.
    pub name: &'a str,
}

impl fmt::Display for Named<'_> {
    ghost output = { λ n. Some (numbered_name n.number n.name.now) };

    #[tactic(auto, unfolding(crate::specs::Texts::numbered_name))]
    fn fmt<W: fmt::Write>(&self, f: &mut fmt::Formatter<W>) -> fmt::Result {
        let (number, name) = (self.number, self.name);
        write!(f, "{number} {name}")
    }
}
