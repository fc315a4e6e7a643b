// The rows of a tree.
ghost use Rattle.std.specs.Prelude.{◌≡◌};
ghost use Rattle.calls.specs.Sum.{tree_rows};

// The rows of a tree of so many leaves.
#[tactic(auto, unfolding(calls::specs::Sum::plus))]
pub(crate) fn tree_rows(leaves: u32) -> u32
    ensures { result ≡ tree_rows leaves }
{
    leaves.saturating_add(leaves.saturating_sub(1))
}
