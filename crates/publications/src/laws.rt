// Laws about publications, which hold for all instances. Each is the contract of a function that does nothing.
ghost use Rattle.std.specs.Prelude.{◌≡◌, ◌⊎◌};
ghost use Rattle.reply_texts.specs.declared.refusals.ServiceRefusal.{ServiceRefusal};
ghost use Rattle.sealed_core.specs.declared.commands.What.{What};
ghost use Rattle.sealed_core.specs.Host.{InstanceView, IsCheckedInstance, as_closed};
ghost use Rattle.split_json.specs.Reading.{CaseData, IsReady};
ghost use Rattle.reply_texts.specs.Contents.{ContentView, refusal_told, told_as};
ghost use Rattle.publications.specs.Publications.{IsPublication, case_data};

use adjusted_winner::winner_text_law;
use bid_rules::case_law;
use certificates::certificate_law;
use fare_audit::one_audit_law;
use goods_audit::one_goods_audit_law;
use reply_texts::division_text_law;
use split_reports::report_law;
use split_solve::solve_law;

/// The case of an instance has facts and bids without fault, with a name for each member and item, and an entry of the bids for each
/// member. The Close doesn't change that case.
pub fn instance_law()
    ensures ready { (i : InstanceView) → IsCheckedInstance i → IsReady (case_data i) }
    ensures closed { (i : InstanceView) → case_data (as_closed i) ≡ case_data i }
{}

/// Only one thing can be published of a case in answer to what is asked, so neither the number of workers nor their order changes its
/// status, its content type or its text.
pub fn one_publication_law()
    ensures { (given : CaseData) (asked : What) (told other : ContentView) → IsReady given
        → IsPublication given asked told → IsPublication given asked other → told ≡ other }
{
    case_law();
    certificate_law();
    division_text_law();
    one_audit_law();
    one_goods_audit_law();
    report_law();
    solve_law();
    winner_text_law();
}

/// What is published is a text with the status 200 and nothing besides, or it is a refusal by the service.
pub fn publication_status_law()
    ensures { (given : CaseData) (asked : What) (told : ContentView)
        → IsPublication given asked told
        → (told ≡ told_as 200 told.content_type told.text)
        ⊎ ((refusal : ServiceRefusal) × (told ≡ refusal_told refusal)) }
{}
