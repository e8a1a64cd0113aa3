// Laws about canonical certificates, which hold for all cases. Each is the contract of a function that does nothing.
ghost use Rattle.std.specs.Prelude.{◌≡◌, ◌≤◌, ℕ, List, length};
ghost use Rattle.bid_rules.specs.declared.cases.Case.{Case};
ghost use Rattle.bid_rules.specs.Facts.{IsValidCase};
ghost use Rattle.cert_checker.specs.Judged.{IsCertificate};
ghost use Rattle.cert_reader.specs.declared.limits.TheConstants.{MOST_BYTES};
ghost use Rattle.certificates.specs.Canonical.{IsCanonical};

use crate::{fare_lines_law, goods_lines_law, rent_lines_law};
use best_laws::{coalition_law, orders_law, players_law, route_cost_law};
use cert_checker::certificate_verdict_law;
use cert_reader::text_law;
use nash_search::step_count_law;
use rent_maximin::{division_range_law, one_rent_division_law};
use shapley_core::division_law;

/// The canonical certificate of a case is certificate text whose rules all hold, so the verdict on it is yes. It has at most
/// `MOST_BYTES` bytes, and a case has at most one such certificate.
pub fn certificate_law()
    ensures certificate { (case : Case) (text : List ℕ) → IsValidCase case → IsCanonical case text
        → IsCertificate text }
    ensures short { (case : Case) (text : List ℕ) → IsValidCase case → IsCanonical case text
        → length text ≤ MOST_BYTES }
    ensures one { (case : Case) (text other : List ℕ) → IsValidCase case → IsCanonical case text
        → IsCanonical case other → text ≡ other }
{
    certificate_verdict_law();
    coalition_law();
    division_law();
    division_range_law();
    fare_lines_law();
    goods_lines_law();
    one_rent_division_law();
    orders_law();
    players_law();
    rent_lines_law();
    route_cost_law();
    step_count_law();
    text_law();
}
