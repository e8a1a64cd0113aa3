// Links that are handed out in turn, and the places for those that are given back.
ghost use Rattle.std.specs.Prelude.{◌≡◌, ◌≤◌, ◌↔◌, [], ◌∷◌, Contains, IfOk, IsTrue, MatchOption, drop, length};
ghost use Rattle.split_base.specs.Faults.{HasRisen, counted};
ghost use Rattle.split_base.specs.MemoryPorts.{PortState, new_port, after_asking, after_call, after_done, with_fault, with_one_less};

use super::calls::Calls;
use super::{MemLink, NoMemory};
use crate::{Asked, Failed};
use std::alloc::Global;
use std::marker::Model;

// Contracts see it as the state of a port in memory.
#[derive(Debug, Drop)]
pub(crate) struct Links {
    to_come: Vec<MemLink>,
    given_back: Vec<MemLink>,
    places: usize,
    calls: Calls,
    asked: Asked,
}

impl Model for Links {
    ghost use Rattle.std.specs.Prelude.{◌+◌, ◌≤◌, vec_len, vec_capacity};
    ghost use Rattle.split_base.specs.MemoryPorts.{PortState};

    ghost Value = { PortState };

    ghost view = { λ l. record {
      to_come = l.to_come.items;
      given_back = l.given_back.items;
      places = l.places;
      fails = l.calls.fails.items;
      calls = l.calls.made;
      faults = l.calls.faults;
      asked = l.asked;
    } };

    ghost invariant = { λ l. vec_len l.given_back + l.places ≤ vec_capacity l.given_back };
}

impl Links {
    // Takes the memory for as many links as are to come.
    pub(crate) fn new(alloc: Global, links: Vec<MemLink>, fails: Vec<u64>) -> Result<Self, NoMemory>
        ensures { IfOk result (λ l. l ≡ new_port links.items (length links.items) fails.items) }
    {
        let places = links.len();
        let Ok(given_back) = Vec::with_capacity(alloc, places) else {
            return Err(NoMemory);
        };
        Ok(Links {
            to_come: links,
            given_back,
            places,
            calls: Calls::new(fails),
            asked: Asked::never(),
        })
    }

    // Counts a call, and says whether it is listed.
    pub(crate) fn begin(&mut self) -> bool
        ensures listed { IsTrue result ↔ Contains self.old.fails (counted self.old.calls) }
        ensures after { self.new ≡ after_call self.old }
    {
        self.calls.begin()
    }

    // Records the port that was asked for.
    pub(crate) fn ask(&mut self, port: u16)
        ensures { self.new ≡ after_asking port self.old }
    {
        self.asked = self.asked.again(port);
    }

    // Counts a fault.
    pub(crate) fn fail(&mut self) -> Failed
        ensures after { self.new ≡ with_fault self.old }
        ensures later { self.old.faults ≤ self.new.faults }
        ensures cause { HasRisen self.old.faults self.new.faults }
    {
        self.calls.fail()
    }

    // The first link to come, if there is one.
    pub(crate) fn next(&mut self) -> Option<MemLink>
        ensures next { MatchOption result (self.old.to_come ≡ []) (λ link.
            self.old.to_come ≡ link ∷ drop 1 self.old.to_come) }
        ensures after { self.new ≡ with_one_less self.old }
    {
        if self.to_come.is_empty() {
            return None;
        }
        Some(self.to_come.remove(0))
    }

    // Keeps a link for the test to look at, if there is still a place for it.
    pub(crate) fn take_back(&mut self, link: MemLink)
        ensures { self.new ≡ after_done self.old link }
    {
        if self.places > 0 {
            self.places -= 1;
            self.given_back.push(link).unwrap();
        }
    }

    // How often a port or a dialer was asked, and the last number asked for, for tests to look at.
    pub(crate) fn asked(&self) -> Asked
        ensures { result ≡ self.now.asked }
    {
        self.asked
    }

    // The links that were given back, so that tests can see what was written to them.
    pub(crate) fn given_back(&self) -> &[MemLink]
        ensures { result.now ≡ self.now.given_back }
    {
        &self.given_back
    }
}
