// The sizes of the pieces in which a source gives its bytes.
ghost use Rattle.std.specs.Prelude.{◌≡◌, ◌<◌, All, drop};
ghost use Rattle.split_base.specs.Memory.{next_piece};

use std::marker::Model;

// Contracts see it as the list of the sizes still to come.
#[derive(Debug, Drop)]
pub(crate) struct Pieces {
    sizes: Vec<usize>,
    turn: usize,
}

impl Model for Pieces {
    ghost use Rattle.std.specs.Prelude.{◌<◌, ℕ, List, All, drop};

    ghost Value = { List ℕ };

    ghost view = { λ p. drop p.turn p.sizes.items };

    ghost invariant = { λ p. All (λ size. 0 < size) p.sizes.items };
}

impl Pieces {
    // An empty piece would look like the end of the source, so no size is 0.
    pub(crate) fn new(sizes: Vec<usize>) -> Self
        requires { All (λ size. 0 < size) sizes.items }
        ensures { result ≡ sizes.items }
    {
        Pieces { sizes, turn: 0 }
    }

    // The most bytes that the next call gives: any number once the list is used up.
    pub(crate) fn next(&mut self) -> usize
        ensures some { 0 < result }
        ensures size { result ≡ next_piece self.old }
        ensures rest { self.new ≡ drop 1 self.old }
    {
        match self.sizes.get(self.turn) {
            Some(size) => {
                let size = *size;
                self.turn += 1;
                size
            }
            None => usize::MAX,
        }
    }
}
