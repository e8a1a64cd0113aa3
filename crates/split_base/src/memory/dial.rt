// A dialer in memory, which opens the links that a test lists.
ghost use Rattle.std.specs.Prelude.{◌≡◌, ◌↔◌, ◌⊎◌, ◌<◌, ◌-◌, [], All, Contains, IfOk, IsErr, MatchResult, Some, length};
ghost use Rattle.split_base.specs.Faults.{HasCause, IsCounted, counted};
ghost use Rattle.split_base.specs.Ports.{Dials, TakesBack};
ghost use Rattle.split_base.specs.Asked.{asked_again};
ghost use Rattle.split_base.specs.MemoryPorts.{new_port, after_listen, after_done, faults_of_link, with_fault, with_one_less};

use super::links::Links;
use super::{MemLink, NoMemory};
use crate::{Asked, Dial, Failed};
use std::alloc::Global;
use std::marker::Model;

/// A dialer that gives its links in order.
///
/// Its calls of `dial` are numbered from 1. A call whose number is listed as failing fails, and so
/// does one when no links are left. A failed call gives no link. No call after `new` takes memory.
#[derive(Debug, Drop)]
pub struct MemDial {
    links: Links,
}

impl Model for MemDial {
    ghost use Rattle.std.specs.Prelude.{◌≡◌, All};
    ghost use Rattle.split_base.specs.MemoryPorts.{PortState, faults_of_link};

    ghost Value = { PortState };

    ghost view = { λ d. d.links };

    ghost invariant = { λ d. All (λ link. faults_of_link link ≡ 0) d.links.to_come };
}

impl MemDial {
    /// A dialer with these links to give, and with a place for each of them when it is given back.
    /// None of them may have had a fault, which `MemLink::has_fault` shows. `fails` has the numbers
    /// of the calls that fail, from 1.
    ///
    /// `NoMemory` means that there was no memory for those places.
    pub fn new(alloc: Global, links: Vec<MemLink>, fails: Vec<u64>) -> Result<Self, NoMemory>
        requires { All (λ link. faults_of_link link ≡ 0) links.items }
        ensures { IfOk result (λ dial.
            dial ≡ new_port links.items (length links.items) fails.items) }
    {
        let links = Links::new(alloc, links, fails)?;
        Ok(MemDial { links })
    }

    /// The links that were given back, in order.
    pub fn finished(&self) -> &[MemLink]
        ensures { result.now ≡ self.now.given_back }
    {
        self.links.given_back()
    }

    /// How often it has been asked to open a link, and to which port most recently.
    pub fn asked(&self) -> Asked
        ensures { result ≡ self.now.asked }
    {
        self.links.asked()
    }
}

impl Dial for MemDial {
    ghost use Rattle.std.specs.Prelude.{Some};

    type Link = MemLink;

    ghost to_come = { λ d. Some d.to_come };

    ghost given_back = { λ d. Some d.given_back };

    ghost places = { λ d. d.places };

    ghost asked = { λ d. d.asked };

    ghost faults = { λ d. d.faults };

    fn dial(&mut self, port: u16) -> Result<MemLink, Failed>
        ensures cause { HasCause self.old.faults self.new.faults result }
        ensures count { IsCounted self.old.faults self.new.faults result }
        ensures asked { self.new.asked ≡ asked_again port self.old.asked }
        ensures next { Dials (Some self.old.to_come) (Some self.new.to_come) result }
        ensures fresh { IfOk result (λ link. faults_of_link link ≡ 0) }
        ensures places { self.new.places ≡ self.old.places }
        ensures back { Some self.new.given_back ≡ Some self.old.given_back }

        // It fails exactly when its number is listed or no link is left.
        ensures fails { IsErr result
            ↔ (Contains self.old.fails (counted self.old.calls) ⊎ (self.old.to_come ≡ [])) }
        ensures after { MatchResult result
            (λ _. self.new ≡ with_one_less (after_listen port self.old))
            (λ _. self.new ≡ with_fault (after_listen port self.old)) }
    {
        self.links.ask(port);
        if self.links.begin() {
            return Err(self.links.fail());
        }
        match self.links.next() {
            Some(link) => Ok(link),
            None => Err(self.links.fail()),
        }
    }

    fn done(&mut self, link: MemLink)
        ensures whole { faults_of_link link ≡ 0 → self.new.faults ≡ self.old.faults }
        ensures fault { 0 < faults_of_link link → self.new.faults ≡ counted self.old.faults }
        ensures asked { self.new.asked ≡ self.old.asked }
        ensures come { Some self.new.to_come ≡ Some self.old.to_come }
        ensures places { self.new.places ≡ self.old.places - 1 }
        ensures back { 0 < self.old.places
            → TakesBack (Some self.old.given_back) (Some self.new.given_back) link }
        ensures dropped { self.old.places ≡ 0
            → Some self.new.given_back ≡ Some self.old.given_back }
    {
        if link.has_fault() {
            let _failed = self.links.fail();
        }
        self.links.take_back(link);
    }
}
