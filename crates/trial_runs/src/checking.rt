// Writes the certificate of each division of a trial, and judges it.
ghost use Rattle.std.specs.Prelude.{OnOk};
ghost use Rattle.bid_rules.specs.Facts.{IsValidCase};
ghost use Rattle.certificates.specs.Division.{IsDivisionOf};
ghost use Rattle.trial_runs.specs.Texts.{IsChecked};

use bid_rules::Case;
use cert_checker::{certificate_verdict_law, judge_text};
use certificates::{Division, division_law, write_certificate};
use rule_verdicts::Verdict;
use split_base::{NoMemory, TextSource};
use std::alloc::Global;

// Writes the certificate of a division in memory, reads it back and judges it. The verdict is yes: certificate text gets one verdict, and
// all rules hold for a canonical certificate.
pub(crate) fn check_division(
    alloc: Global,
    case: &Case,
    division: &Division,
) -> Result<(), NoMemory>
    requires case { IsValidCase case.now }
    requires division { IsDivisionOf case.now division.now }
    ensures { OnOk result (IsChecked case.now division.now) }
{
    certificate_verdict_law();
    division_law();
    let certificate = write_certificate(alloc, case, division)?;
    let mut source = TextSource::new(certificate.as_slice());
    match judge_text(&mut source) {
        Ok(Verdict::Yes) => Ok(()),
        Ok(Verdict::No { .. }) => unreachable!(),
        Err(_) => unreachable!(),
    }
}
