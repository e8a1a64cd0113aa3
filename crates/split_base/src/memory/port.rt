// A port in memory, which hands out the links that a test lists.
ghost use Rattle.std.specs.Prelude.{◌≡◌, ◌↔◌, ◌<◌, ◌-◌, [], Contains, IfOk, IsErr, IsNone, IsTrue, MatchResult, Some, false, length};
ghost use Rattle.split_base.specs.Faults.{HasCause, IsCounted, counted};
ghost use Rattle.split_base.specs.Ports.{Accepts, AnswersNone, TakesBack, handed_out};
ghost use Rattle.split_base.specs.Asked.{asked_again};
ghost use Rattle.split_base.specs.MemoryPorts.{new_port, after_listen, after_link, after_no_link, after_done, with_fault};

use super::links::Links;
use super::{MemLink, NoMemory};
use crate::{Asked, Failed, Port};
use std::alloc::Global;
use std::marker::Model;

/// A port that hands out its links in order, and has ended when they are used up.
///
/// Its calls of `listen` and `accept` are numbered together from 1. A call whose number is listed
/// as failing fails, and hands out no link. No call after `new` takes memory.
#[derive(Debug, Drop)]
pub struct MemPort {
    links: Links,
    out: u64,
    is_over: bool,
}

impl Model for MemPort {
    ghost use Rattle.split_base.specs.MemoryPorts.{OpenPort};

    ghost Value = { OpenPort };

    ghost view = { λ p. record {
      links = p.links;
      out = p.out;
      is_over = p.is_over;
    } };
}

impl MemPort {
    /// A port with these links to hand out, and with a place for each of them when it is given
    /// back. `fails` has the numbers of the calls that fail, from 1.
    ///
    /// `NoMemory` means that there was no memory for those places.
    pub fn new(alloc: Global, links: Vec<MemLink>, fails: Vec<u64>) -> Result<Self, NoMemory>
        ensures { IfOk result (λ port. port ≡ record {
          links = new_port links.items (length links.items) fails.items;
          out = 0;
          is_over = false;
        }) }
    {
        let links = Links::new(alloc, links, fails)?;
        Ok(MemPort {
            links,
            out: 0,
            is_over: false,
        })
    }

    /// The links that were given back, in order.
    pub fn finished(&self) -> &[MemLink]
        ensures { result.now ≡ self.now.links.given_back }
    {
        self.links.given_back()
    }

    /// How often it has been asked to listen, and at which port most recently.
    pub fn asked(&self) -> Asked
        ensures { result ≡ self.now.links.asked }
    {
        self.links.asked()
    }
}

impl Port for MemPort {
    ghost use Rattle.std.specs.Prelude.{◌≡◌, [], IsTrue, Some};

    type Link = MemLink;

    ghost to_come = { λ p. Some p.links.to_come };

    ghost given_back = { λ p. Some p.links.given_back };

    ghost places = { λ p. p.links.places };

    ghost asked = { λ p. p.links.asked };

    ghost out = { λ p. p.out };

    ghost has_ended = { λ p. p.links.to_come ≡ [] };

    ghost is_over = { λ p. IsTrue p.is_over };

    ghost faults = { λ p. p.links.faults };

    fn listen(&mut self, port: u16) -> Result<(), Failed>
        ensures cause { HasCause self.old.links.faults self.new.links.faults result }
        ensures count { IsCounted self.old.links.faults self.new.links.faults result }
        ensures asked { self.new.links.asked ≡ asked_again port self.old.links.asked }
        ensures out { self.new.out ≡ self.old.out }
        ensures stays { (self.old.links.to_come ≡ []) ↔ (self.new.links.to_come ≡ []) }
        ensures over { IsTrue self.new.is_over ↔ (IsErr result × IsTrue self.old.is_over) }
        ensures places { self.new.links.places ≡ self.old.links.places }
        ensures come { Some self.new.links.to_come ≡ Some self.old.links.to_come }
        ensures back { Some self.new.links.given_back ≡ Some self.old.links.given_back }

        // It fails exactly when its number is listed.
        ensures fails { IsErr result
            ↔ Contains self.old.links.fails (counted self.old.links.calls) }
        ensures after { MatchResult result (λ _. self.new.links ≡ after_listen port self.old.links)
            (λ _. self.new.links ≡ with_fault (after_listen port self.old.links)) }
    {
        self.links.ask(port);
        if self.links.begin() {
            return Err(self.links.fail());
        }
        self.is_over = false;
        Ok(())
    }

    fn accept(&mut self) -> Result<Option<MemLink>, Failed>
        requires none_out { self.old.out ≡ 0 }
        requires goes_on { IsTrue self.old.is_over → ⊥ }
        ensures cause { HasCause self.old.links.faults self.new.links.faults result }
        ensures count { IsCounted self.old.links.faults self.new.links.faults result }
        ensures asked { self.new.links.asked ≡ self.old.links.asked }
        ensures next { Accepts (Some self.old.links.to_come) (Some self.new.links.to_come) result }
        ensures out { self.new.out ≡ handed_out result }
        ensures ended { IfOk result (λ next. IsNone next ↔ (self.old.links.to_come ≡ [])) }
        ensures stays { self.old.links.to_come ≡ [] → self.new.links.to_come ≡ [] }
        ensures over { IsTrue self.new.is_over ↔ AnswersNone result }
        ensures places { self.new.links.places ≡ self.old.links.places }
        ensures back { Some self.new.links.given_back ≡ Some self.old.links.given_back }

        // It fails exactly when its number is listed.
        ensures fails { IsErr result
            ↔ Contains self.old.links.fails (counted self.old.links.calls) }
        ensures after { MatchResult result (λ _. self.new.links ≡ after_link self.old.links)
            (λ _. self.new.links ≡ after_no_link self.old.links) }
    {
        if self.links.begin() {
            return Err(self.links.fail());
        }
        let next = self.links.next();
        match &next {
            Some(_) => self.out = 1,
            None => self.is_over = true,
        }
        Ok(next)
    }

    fn done(&mut self, link: MemLink)
        ensures count { self.new.links.faults ≡ self.old.links.faults }
        ensures asked { self.new.links.asked ≡ self.old.links.asked }
        ensures out { self.new.out ≡ self.old.out - 1 }
        ensures stays { (self.old.links.to_come ≡ []) ↔ (self.new.links.to_come ≡ []) }
        ensures over { IsTrue self.old.is_over ↔ IsTrue self.new.is_over }
        ensures come { Some self.new.links.to_come ≡ Some self.old.links.to_come }
        ensures places { self.new.links.places ≡ self.old.links.places - 1 }
        ensures back { 0 < self.old.links.places
            → TakesBack (Some self.old.links.given_back) (Some self.new.links.given_back) link }
        ensures dropped { self.old.links.places ≡ 0
            → Some self.new.links.given_back ≡ Some self.old.links.given_back }
        ensures after { self.new.links ≡ after_done self.old.links link }
    {
        self.out = self.out.saturating_sub(1);
        self.links.take_back(link);
    }
}
