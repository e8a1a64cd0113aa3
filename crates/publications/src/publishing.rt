// Makes what is published of a closed instance.
ghost use Rattle.std.specs.Prelude.{◌≡◌, ◌==◌, IfOk, Ok, length};
ghost use Rattle.bid_rules.specs.Facts.{IsValidCase, case_of};
ghost use Rattle.bid_rules.specs.Goods.{IsValidGoodsCase, player_count};
ghost use Rattle.certificates.specs.Division.{IsDivisionOf};
ghost use Rattle.goods_audit.specs.Texts.{IsDivisionAudit};
ghost use Rattle.nash_search.specs.Division.{IsGoodsDivision};
ghost use Rattle.sealed_core.specs.Host.{IsCheckedInstance, instance_view};
ghost use Rattle.reply_texts.specs.Contents.{content_view};
ghost use Rattle.reply_texts.specs.declared.contents.ContentType.TheVariants.{Plain};
ghost use Rattle.publications.specs.Publications.{AsksBest, IsAudit, IsPublication, IsPublished, IsSuccessWith, TellsAudit, TellsBest, TellsFault, TellsPair, TellsWinner, case_data, refusal_of_fault};
ghost use Rattle.split_reports.specs.Names.{names_of, shown_names};
ghost use Rattle.bid_rules.specs.declared.limits.TheConstants.{PAIR};

use adjusted_winner::winner_text;
use bid_rules::limits::PAIR_ROOM;
use bid_rules::{Case, Facts, GoodsCase, case_law, make_case};
use certificates::Division;
use fare_audit::fare_audit_text;
use goods_audit::division_audit;
use nash_search::GoodsDivision;
use reply_texts::{ReplyContent, ServiceRefusal, division_text, refusal_content};
use sealed_core::{Instance, What};
use split_base::{Gate, NoMemory};
use split_reports::{Names, named_report};
use split_solve::{SolveFault, Solver, certificate_once, solve_once};
use std::alloc::Global;
use std::thread::Threads;

/// What is published of an instance, by what is asked for.
///
/// - A division, a certificate and a report give the best division of the case that the facts and bids make, and so does the audit of goods
///   or of a shared fare. Otherwise they say, with the status of the refusal, that there is no case because bids are missing, or that the
///   case is one of goods whose step count is above its limit. A rent has no audit, whatever its bids.
/// - The winner is given for a case of goods between two players, whatever its step count. Otherwise it says that bids are missing, or that
///   there aren't two players.
///
/// It may be asked before the event that closes the instance is applied: that makes no difference. Goods are searched by the workers, unless
/// the search of the same case is kept, and a certificate of goods that is kept is copied. Neither the workers nor what is kept change the
/// answer.
pub fn publication<R: Threads + Sync, G: Gate + Sync>(
    solver: &mut Solver<'_, R, G>,
    instance: &Instance,
    what: What,
) -> Result<ReplyContent<'static>, NoMemory>
    requires sound { IsCheckedInstance (instance_view instance.now) }
    ensures { IfOk result (λ told.
        IsPublication (case_data (instance_view instance.now)) what (content_view told)) }
{
    match what {
        What::Division | What::Certificate | What::Report => best(solver, instance, what),
        What::Audit => audit(solver, instance),
        What::Winner => winner(solver.means.alloc, instance),
    }
}

// The best division, in the form that is asked for.
fn best<R: Threads + Sync, G: Gate + Sync>(
    solver: &mut Solver<'_, R, G>,
    instance: &Instance,
    what: What,
) -> Result<ReplyContent<'static>, NoMemory>
    requires sound { IsCheckedInstance (instance_view instance.now) }
    requires asked { AsksBest what }
    ensures { IfOk result (λ told.
        TellsBest what (case_data (instance_view instance.now)) (content_view told)) }
{
    let facts = &instance.creation.facts;
    let bids = instance.bids.as_slice();
    match solve_once(solver, facts, bids) {
        Ok((case, division)) => published(solver, instance, what, &case, &division),
        Err(fault) => unsolved(solver.means.alloc, fault),
    }
}

// The audit of an instance.
fn audit<R: Threads + Sync, G: Gate + Sync>(
    solver: &mut Solver<'_, R, G>,
    instance: &Instance,
) -> Result<ReplyContent<'static>, NoMemory>
    requires sound { IsCheckedInstance (instance_view instance.now) }
    ensures { IfOk result (λ told.
        TellsAudit (case_data (instance_view instance.now)) instance.now.creation.facts
        (content_view told)) }
{
    match &instance.creation.facts {
        Facts::Rent(_) => refusal_content(solver.means.alloc, &ServiceRefusal::NoAudit),
        Facts::Goods(_) | Facts::Fares(_) => best(solver, instance, What::Audit),
    }
}

// The winner of an instance.
fn winner(alloc: Global, instance: &Instance) -> Result<ReplyContent<'static>, NoMemory>
    requires sound { IsCheckedInstance (instance_view instance.now) }
    ensures { IfOk result (λ told.
        TellsWinner (case_of instance.now.creation.facts instance.now.bids.items)
        (content_view told)) }
{
    match make_case(&instance.creation.facts, instance.bids.as_slice()) {
        Ok(Case::Goods(goods)) => winner_between(alloc, &goods),
        Ok(Case::Rent(_)) | Ok(Case::Fares(_)) => refusal_content(alloc, &ServiceRefusal::NotTwo),
        Err(missing) => refusal_content(alloc, &ServiceRefusal::Void { missing }),
    }
}

// The winner of goods, if there are two players.
fn winner_between(alloc: Global, goods: &GoodsCase) -> Result<ReplyContent<'static>, NoMemory>
    requires { IsValidGoodsCase goods.now }
    ensures { IfOk result (λ told.
        TellsPair (player_count goods.now == PAIR) goods.now (content_view told)) }
{
    if goods.values.len() != PAIR_ROOM {
        return refusal_content(alloc, &ServiceRefusal::NotTwo);
    }
    winner_of_two(alloc, goods)
}

// The winner of goods between two.
fn winner_of_two(alloc: Global, goods: &GoodsCase) -> Result<ReplyContent<'static>, NoMemory>
    requires case { IsValidGoodsCase goods.now }
    requires two { player_count goods.now ≡ PAIR }
    ensures { IfOk result (λ told.
        TellsPair (player_count goods.now == PAIR) goods.now (content_view told)) }
{
    let text = winner_text(alloc, goods)?;
    Ok(ReplyContent::plain(text))
}

// The refusal by which a fault of the solver is told.
fn refusal_of(fault: SolveFault) -> ServiceRefusal
    ensures { result ≡ refusal_of_fault fault }
{
    match fault {
        SolveFault::Void { missing } => ServiceRefusal::Void { missing },
        SolveFault::OverLimit { limit } => ServiceRefusal::StepLimit { limit },
        SolveFault::NoMemory => ServiceRefusal::Memory,
    }
}

// What is published of an instance that has no division.
fn unsolved(alloc: Global, fault: SolveFault) -> Result<ReplyContent<'static>, NoMemory>
    ensures { IfOk result (λ told. TellsFault fault (content_view told)) }
{
    match fault {
        SolveFault::Void { .. } | SolveFault::OverLimit { .. } => {
            refusal_content(alloc, &refusal_of(fault))
        }
        SolveFault::NoMemory => Err(NoMemory),
    }
}

// What is published of an instance with this case and its division.
fn published<R: Threads + Sync, G: Gate + Sync>(
    solver: &mut Solver<'_, R, G>,
    instance: &Instance,
    what: What,
    case: &Case,
    division: &Division,
) -> Result<ReplyContent<'static>, NoMemory>
    requires sound { IsCheckedInstance (instance_view instance.now) }
    requires asked { AsksBest what }
    requires case { case_of instance.now.creation.facts instance.now.bids.items ≡ Ok case.now }
    requires division { IsDivisionOf case.now division.now }
    ensures { IfOk result (λ told.
        IsPublished what (case_data (instance_view instance.now)) case.now division.now
        (content_view told)) }
{
    case_law();
    let alloc = solver.means.alloc;
    match what {
        What::Division => Ok(ReplyContent::json(division_text(alloc, case, division)?)),
        What::Certificate => Ok(ReplyContent::plain(certificate_once(solver, case, division)?)),
        What::Report => {
            let names = names_of(instance);
            Ok(ReplyContent::plain(named_report(alloc, &names, case, division)?))
        }
        What::Audit => audited(alloc, instance, case, division),
        What::Winner => unreachable!(),
    }
}

// The audit of an instance with this case and its division.
fn audited(
    alloc: Global,
    instance: &Instance,
    case: &Case,
    division: &Division,
) -> Result<ReplyContent<'static>, NoMemory>
    requires sound { IsCheckedInstance (instance_view instance.now) }
    requires case { case_of instance.now.creation.facts instance.now.bids.items ≡ Ok case.now }
    requires valid { IsValidCase case.now }
    requires division { IsDivisionOf case.now division.now }
    ensures { IfOk result (λ told.
        IsAudit (case_data (instance_view instance.now)) case.now division.now
        (content_view told)) }
{
    case_law();
    let title = instance.creation.title.as_str();
    match (case, division) {
        (Case::Rent(_), Division::Rent(_)) => refusal_content(alloc, &ServiceRefusal::NoAudit),
        (Case::Goods(case), Division::Goods(division)) => {
            audited_goods(alloc, instance, case, division)
        }
        (Case::Fares(case), Division::Fares(division)) => {
            Ok(ReplyContent::plain(fare_audit_text(alloc, title, case, division)?))
        }
        _ => unreachable!(),
    }
}

// The audit of an instance with this case of goods and its division.
fn audited_goods(
    alloc: Global,
    instance: &Instance,
    case: &GoodsCase,
    division: &GoodsDivision,
) -> Result<ReplyContent<'static>, NoMemory>
    requires case { IsValidGoodsCase case.now }
    requires members { length instance.now.creation.members.items ≡ case.now.facts.members }
    requires division { IsGoodsDivision case.now division.now }
    ensures { IfOk result (λ told.
        IsSuccessWith Plain
        (IsDivisionAudit (names_of (case_data (instance_view instance.now))) case.now division.now)
        (content_view told)) }
{
    let names = names_of(instance);
    let text = division_audit(alloc, &names, case, division)?;
    Ok(ReplyContent::plain(text))
}

// The names of an instance that a report uses.
fn names_of(instance: &Instance) -> Names<'_>
    ensures { shown_names result ≡ names_of (case_data (instance_view instance.now)) }
{
    let creation = &instance.creation;
    Names::new(&creation.title, &creation.members, &creation.items)
}
