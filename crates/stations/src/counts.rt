// The counts of the common record, in six words one after the other.
ghost use Rattle.std.specs.Prelude.{◌≡◌};
ghost use Rattle.stations.specs.Counts.{counts_at, count_words, put_counts};

use words::layout::{AT_COUNTS, COMMON_SIZE};
use words::part::write_part;
use words::word::get;

// Changes since opening, records held, root of the tree, head and tail of the queue, and removals since opening.
#[derive(Clone, Copy)]
pub struct Counts {
    pub changes: u32,
    pub held: u32,
    pub root: u32,
    pub head: u32,
    pub tail: u32,
    pub removals: u32,
}

// The counts. Each word by itself: of a slice that is too short, `counts_at` still has those that are there.
#[tactic(auto, unfolding(crate::specs::Counts::counts_at, words::specs::Layout::at_counts))]
pub fn read_counts(words: &[u32]) -> Counts
    ensures { result ≡ counts_at words.now }
{
    Counts {
        changes: get(words, AT_COUNTS),
        held: get(words, AT_COUNTS + 1),
        root: get(words, AT_COUNTS + 2),
        head: get(words, AT_COUNTS + 3),
        tail: get(words, AT_COUNTS + 4),
        removals: get(words, AT_COUNTS + 5),
    }
}

impl Counts {
    // Their six words.
    #[tactic(auto, unfolding(crate::specs::Counts::count_words))]
    fn to_words(self) -> [u32; 6]
        ensures { result ≡ count_words self }
    {
        [
            self.changes,
            self.held,
            self.root,
            self.head,
            self.tail,
            self.removals,
        ]
    }
}

// Writes the counts; nothing where the slice is too short for the common record.
#[tactic(auto, using(words::proofs::Lent::part_fits), unfolding(crate::specs::Counts::put_counts, crate::specs::Counts::count_words, words::specs::Layout::at_counts))]
pub fn write_counts(words: &mut [u32], counts: Counts)
    ensures { words.new ≡ put_counts words.old counts }
{
    if COMMON_SIZE <= words.len() {
        write_part(words, AT_COUNTS, &counts.to_words());
    }
}
