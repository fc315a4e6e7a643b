// A report: the number of places taken, as the common record counts them.
ghost use Rattle.std.specs.Prelude.{◌≡◌};
ghost use Rattle.calls.specs.Report.{report_of};

use stations::common::{is_opened, taken};
use words::refusal::{Refusal, ask};

// Question 4, then the count. In line, so that the result does not go through memory.
#[inline(always)]
#[tactic(auto, unfolding(calls::specs::Report::report_of))]
pub fn read_report(words: &[u32]) -> Result<u64, Refusal>
    ensures { result ≡ report_of words.now }
{
    ask(is_opened(words), Refusal::NotOpened)?;
    Ok(taken(words))
}
