// Whether tree and queue are whole: together they are all the rows.
ghost use Rattle.std.specs.Prelude.{◌≡◌};
ghost use Rattle.calls.specs.Whole.{whole_queue, all_rows};

use crate::sum::tree_rows;
use calls::queue::Queued;
use calls::tree::Count;
use stations::common::rows_in;
use stations::counts::read_counts;
use words::layout::NONE;

// Whether the queue ends at the tail, with the last removal.
fn whole_queue(words: &[u32], l: Queued) -> bool
    ensures { result ≡ whole_queue words.now l }
{
    let counts = read_counts(words);
    l.sound & (l.at == NONE) & (l.last == counts.tail) & (l.number == counts.removals)
}

// Whether tree and queue are sound, and are all the rows.
#[tactic(auto, unfolding(calls::specs::Sum::plus))]
pub(crate) fn all_rows(words: &[u32], t: Count, l: Queued) -> bool
    ensures { result ≡ all_rows words.now t l }
{
    t.sound & whole_queue(words, l) & (tree_rows(t.leaves).saturating_add(l.rows) == rows_in(words))
}
