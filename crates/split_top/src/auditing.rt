// The command `audit`, over any dialer: it has a certificate fetched and judged, and the answer decides how it ends.
ghost use Rattle.std.specs.Prelude.{◌≡◌};
ghost use Rattle.command_results.specs.Endings.{ending_of};
ghost use Rattle.serving.specs.Served.{tells_of};
ghost use Rattle.split_top.specs.Audits.{Audits, fetch_ending};

use command_results::{Stop, Text};
use remote_check::{FetchEnd, Words, fetch};
use rule_verdicts::Verdict;
use split_base::{Dial, Failed};

// Dials the port of a host on this machine, once, has the certificate of an instance judged as it comes, and gives the link back, whatever came. It takes no
// memory.
pub(crate) fn audit<X: Dial>(dialer: &mut X, port: u16, words: &Words) -> Result<Text, Stop>
    ensures { Audits X.Dial (tells_of X.Link.Source X.Link.Sink) dialer.old dialer.new port
        words.now (ending_of result) }
{
    let mut link = match dialer.dial(port) {
        Ok(link) => link,
        Err(Failed) => return Err(Stop::PortFault),
    };
    let answer = fetch(&mut link, words);
    dialer.done(link);
    ending(answer)
}

// The ending that an answer is.
fn ending(answer: Result<Verdict, FetchEnd>) -> Result<Text, Stop>
    ensures { ending_of result ≡ fetch_ending answer }
{
    match answer {
        Ok(Verdict::Yes) => Ok(Text::yes()),
        Ok(Verdict::No { rule }) => Err(Stop::BrokenRule { rule }),
        Err(FetchEnd::Reply) => Err(Stop::BadReply),
        Err(FetchEnd::Status { code }) => Err(Stop::BadStatus { code }),
        Err(FetchEnd::NotText { line }) => Err(Stop::BrokenLine { line }),
        Err(FetchEnd::TooLong) => Err(Stop::TooLong),
        Err(FetchEnd::LinkFault) => Err(Stop::PortFault),
    }
}
