// The rule of a desk, and what each step on it shows to the seat that takes it.
ghost use Rattle.search_workers.specs.Desks.{Kept};
ghost use Rattle.search_workers.specs.Plays.{Draws, Learns, Reports};
ghost use Rattle.search_workers.specs.Views.{fewer, idle_worker, sum_of_views, no_worker, whole};

use crate::view::{DeskSize, DeskView};
use atomic_table::{Join, Play, Split, TableRule};

/// The rule that a desk keeps between any two steps.
#[derive(Clone, Copy)]
pub struct DeskRule;

impl TableRule<(), DeskView, DeskSize> for DeskRule {
    ghost holds = { Kept };

    ghost first = { λ key. whole key.left key.workers };
}

/// A ticket is drawn.
pub(crate) struct Draw;

impl Play<(), DeskView> for Draw {
    ghost then = { Draws };
}

/// Counted prefixes are reported.
pub(crate) struct Tell;

impl Play<(), DeskView> for Tell {
    ghost then = { Reports };
}

/// The seat that accounts for all workers sees the ticket word.
pub(crate) struct Learn;

impl Play<(), DeskView> for Learn {
    ghost then = { Learns };
}

/// One worker gets a seat of its own.
pub(crate) struct Cut;

impl Split<DeskView> for Cut {
    ghost left = { fewer };

    ghost right = { idle_worker };
}

/// Two views become one.
pub(crate) struct Both;

impl Join<DeskView> for Both {
    ghost both = { sum_of_views };

    ghost spent = { no_worker };
}
