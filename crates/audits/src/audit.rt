// The audit: every row answers for itself, the queue is walked from its head, and together they must be all the rows.
ghost use Rattle.std.specs.Prelude.{◌≡◌};
ghost use Rattle.calls.specs.Audit.{verdict_of};

use crate::queue::queue;
use crate::tree::tree;
use crate::whole::all_rows;
use stations::common::is_opened;
use words::refusal::{Refusal, ask};

// Question 4; then whether every row is in the tree or in the queue, once, and both are sound.
#[tactic(auto, unfolding(calls::specs::Audit::verdict_of))]
pub fn audit(words: &[u32]) -> Result<bool, Refusal>
    ensures { result ≡ verdict_of words.now }
{
    ask(is_opened(words), Refusal::NotOpened)?;
    Ok(all_rows(words, tree(words), queue(words)))
}
