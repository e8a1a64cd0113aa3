// Reading JSON: the text of a deadline, which is read as `jiff` reads timestamps.
ghost use Rattle.std.specs.Prelude.{◌≡◌, ◌≤◌, IfSome};
ghost use Rattle.body_fields.specs.declared.limits.TheConstants.{LAST_DEADLINE};
ghost use Rattle.split_json.specs.Deadlines.{deadline_of};

use jiff::Timestamp;

// The second since 1970 that a timestamp's text names, without the fraction of a second. A time before 1970 doesn't count, even
// by less than a second, so the timestamp is tested before its fraction is dropped.
pub(crate) fn deadline_of(text: &str) -> Option<u64>
    ensures second { result ≡ deadline_of text.now }
    ensures last { IfSome result (λ second. second ≤ LAST_DEADLINE) }
{
    let moment = text.parse::<Timestamp>().ok()?;
    if moment >= Timestamp::UNIX_EPOCH {
        Some(moment.as_second() as u64)
    } else {
        None
    }
}
