// Counts the calls of an object in memory: they are numbered from 1, and the listed ones fail.
ghost use Rattle.std.specs.Prelude.{◌≡◌, ◌↔◌, Contains, IsTrue};
ghost use Rattle.split_base.specs.Memory.{counted};

use crate::Failed;

#[derive(Debug, Drop)]
pub(crate) struct Calls {
    pub(crate) fails: Vec<u64>,
    pub(crate) made: u64,
    pub(crate) faults: u64,
}

impl Calls {
    // No call has been made yet, so none has failed.
    pub(crate) fn new(fails: Vec<u64>) -> Self
        ensures { result ≡ record { fails = fails; made = 0; faults = 0 } }
    {
        Calls {
            fails,
            made: 0,
            faults: 0,
        }
    }

    // Counts a call, and says whether it is listed.
    pub(crate) fn begin(&mut self) -> bool
        ensures listed { IsTrue result ↔ Contains self.old.fails.items (counted self.old.made) }
        ensures made { self.new.made ≡ counted self.old.made }
        ensures same { (self.new.fails ≡ self.old.fails) × (self.new.faults ≡ self.old.faults) }
    {
        self.made = self.made.saturating_add(1);
        self.fails.contains(&self.made)
    }

    // Counts a fault.
    pub(crate) fn fail(&mut self) -> Failed
        ensures faults { self.new.faults ≡ counted self.old.faults }
        ensures same { (self.new.fails ≡ self.old.fails) × (self.new.made ≡ self.old.made) }
    {
        self.faults = self.faults.saturating_add(1);
        Failed
    }
}
