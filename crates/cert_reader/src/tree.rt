// What the line of the tree says in the text of a certificate of goods, once it has been read: the characters of all nodes.
ghost use Rattle.std.specs.Prelude.{◌≡◌};

use std::marker::Model;

/// The characters of the tree of a certificate of goods, each `+`, `-` or `=`. A node comes before the nodes below it.
#[derive(Debug, Drop)]
pub struct Tree {
    marks: Vec<u8>,
}

impl Model for Tree {
    ghost use Rattle.std.specs.Prelude.{ℕ, List};

    ghost Value = { List ℕ };

    ghost view = { λ s. s.marks.items };
}

impl Tree {
    // A tree of these characters.
    pub(crate) fn new(marks: Vec<u8>) -> Self
        ensures { result ≡ marks.items }
    {
        Tree { marks }
    }

    /// The characters.
    pub fn marks(&self) -> &[u8]
        ensures { result.now ≡ self.now }
    {
        &self.marks
    }
}
