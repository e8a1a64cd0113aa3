// The certificates of goods that the solver keeps with its searches, so that one that is asked for again need not be written again.
ghost use Rattle.std.specs.Prelude.{◌≡◌, IfOk, IfSome};
ghost use Rattle.bid_rules.specs.declared.cases.Case.TheVariants as cases;
ghost use Rattle.bid_rules.specs.Facts.{IsValidCase};
ghost use Rattle.certificates.specs.Canonical.{IsCanonical};
ghost use Rattle.certificates.specs.Division.{IsDivisionOf};
ghost use Rattle.split_solve.specs.Searches.{IsGoodsText};

use crate::kept::{KeptSearches, same_case};
use crate::limits::{MOST_KEPT_BYTES, MOST_KEPT_SEARCHES};
use crate::solver::Solver;
use bid_rules::{Case, GoodsCase};
use certificates::{Division, write_certificate};
use split_base::{Gate, NoMemory};
use std::alloc::Global;
use std::marker::Model;
use std::thread::Threads;

/// A case of goods, and its certificate. Contracts see the case.
#[derive(Drop)]
pub(crate) struct KeptCertificate {
    case: GoodsCase,
    text: Vec<u8>,
}

impl Model for KeptCertificate {
    ghost use Rattle.bid_rules.specs.declared.goods.GoodsCase.{GoodsCase};
    ghost use Rattle.split_solve.specs.Searches.{IsGoodsText};

    ghost Value = { GoodsCase };

    ghost view = { λ k. k.case };

    ghost invariant = { λ k. IsGoodsText k.case k.text.items };
}

impl KeptCertificate {
    // A copy of the certificate, if it is that of this case and there is memory for a copy.
    fn answer(&self, alloc: Global, case: &GoodsCase) -> Option<Vec<u8>>
        ensures { IfSome result (λ text. IsGoodsText case.now text.items) }
    {
        if self.case == *case {
            let text = copy_of(alloc, self.text.as_slice())?;
            return Some(text);
        }
        None
    }
}

impl KeptSearches {
    // A copy of the certificate of this case, if it is kept.
    fn certificate(&self, alloc: Global, case: &GoodsCase) -> Option<Vec<u8>>
        ensures { IfSome result (λ text. IsGoodsText case.now text.items) }
    {
        for kept in self.certificates.iter() {
            if let Some(text) = kept.answer(alloc, case) {
                return Some(text);
            }
        }
        None
    }

    // Keeps the certificate of a case, in place of the oldest ones if there is no room for it beside them.
    fn keep_certificate(&mut self, alloc: Global, case: &GoodsCase, text: &[u8])
        requires { IsGoodsText case.now text.now }
    {
        self.make_room(text.len());
        if !self.has_room(text.len()) {
            return;
        }
        if let Some(text) = copy_of(alloc, text) {
            let _ = self.certificates.push(KeptCertificate {
                case: same_case(case),
                text,
            });
        }
    }

    // Forgets the oldest certificates until one of this many bytes has room.
    fn make_room(&mut self, bytes: usize) {
        for _ in 0..MOST_KEPT_SEARCHES {
            if self.certificates.is_empty() || self.has_room(bytes) {
                return;
            }
            self.certificates.remove(0);
        }
    }

    // Whether a certificate of this many bytes has room beside those that are kept.
    fn has_room(&self, bytes: usize) -> bool {
        self.certificates.len() < MOST_KEPT_SEARCHES
            && self.kept_bytes().saturating_add(bytes) <= MOST_KEPT_BYTES
    }

    // How many bytes the kept certificates have.
    fn kept_bytes(&self) -> usize {
        let mut bytes: usize = 0;
        for kept in self.certificates.iter() {
            bytes = bytes.saturating_add(kept.text.len());
        }
        bytes
    }
}

// A copy of the bytes, if there is memory for it.
fn copy_of(alloc: Global, bytes: &[u8]) -> Option<Vec<u8>>
    ensures { IfSome result (λ copy. copy.items ≡ bytes.now) }
{
    let mut copy = Vec::new(alloc);
    match copy.extend_from_slice(bytes) {
        Ok(()) => Some(copy),
        Err(_) => None,
    }
}

/// What `write_certificate` gives. A certificate of goods that was kept is copied; any other of goods is written, and then kept.
///
/// A kept certificate never changes the text, since it is the canonical one of its whole case. Memory that is refused for keeping is
/// not a fault.
pub fn certificate_once<R: Threads + Sync, G: Gate + Sync>(
    solver: &mut Solver<'_, R, G>,
    case: &Case,
    division: &Division,
) -> Result<Vec<u8>, NoMemory>
    requires case { IsValidCase case.now }
    requires division { IsDivisionOf case.now division.now }
    ensures { IfOk result (λ text. IsCanonical case.now text.items) }
{
    match case {
        Case::Goods(goods) => goods_certificate(solver, case, goods, division),
        Case::Rent(_) | Case::Fares(_) => { write_certificate(solver.means.alloc, case, division) }
    }
}

// The certificate of a case of goods, by the kept ones.
fn goods_certificate<R: Threads + Sync, G: Gate + Sync>(
    solver: &mut Solver<'_, R, G>,
    case: &Case,
    goods: &GoodsCase,
    division: &Division,
) -> Result<Vec<u8>, NoMemory>
    requires goods { case.now ≡ cases.Goods goods.now }
    requires case { IsValidCase case.now }
    requires division { IsDivisionOf case.now division.now }
    ensures { IfOk result (λ text. IsCanonical case.now text.items) }
{
    let means = solver.means;
    if let Some(text) = solver.searches.certificate(means.alloc, goods) {
        return Ok(text);
    }
    let text = write_certificate(means.alloc, case, division)?;
    solver
        .searches
        .keep_certificate(means.alloc, goods, text.as_slice());
    Ok(text)
}
