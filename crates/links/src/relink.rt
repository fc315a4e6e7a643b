// Rows with other links. A row that is not of the kind asked for is not changed into another.
ghost use Rattle.std.specs.Prelude.{◌≡◌};
ghost use Rattle.calls.specs.Link.{with_next, with_parent, removed_as, replaced};

use rows::row::Row;

// A free row with another next link.
pub fn with_next(next: u32, row: Row) -> Row
    ensures { result ≡ with_next next row }
{
    match row {
        Row::Spare { freed, .. } => Row::Spare { next, freed },
        Row::Removed {
            freed,
            added,
            point,
            curve,
            ..
        } => Row::Removed {
            next,
            freed,
            added,
            point,
            curve,
        },
        _ => Row::Bad,
    }
}

// A row of the tree with another parent link.
pub fn with_parent(parent: u32, row: Row) -> Row
    ensures { result ≡ with_parent parent row }
{
    match row {
        Row::Leaf {
            added,
            point,
            curve,
            ..
        } => Row::Leaf {
            parent,
            added,
            point,
            curve,
        },
        Row::Cut {
            cut,
            left,
            right,
            ..
        } => Row::Cut {
            parent,
            cut,
            left,
            right,
        },
        _ => Row::Bad,
    }
}

// A leaf as the removed row that it becomes, with its next link and the number of its removal.
pub fn removed_as(next: u32, number: u32, row: Row) -> Row
    ensures { result ≡ removed_as next number row }
{
    match row {
        Row::Leaf {
            added,
            point,
            curve,
            ..
        } => Row::Removed {
            next,
            freed: number,
            added,
            point,
            curve,
        },
        _ => Row::Bad,
    }
}

// A cut with a new child in the place of an old one.
pub fn replaced(old: u32, new: u32, row: Row) -> Row
    ensures { result ≡ replaced old new row }
{
    match row {
        Row::Cut {
            parent,
            cut,
            left,
            right,
        } if left == old => Row::Cut {
            parent,
            cut,
            left: new,
            right,
        },
        Row::Cut {
            parent,
            cut,
            left,
            ..
        } => Row::Cut {
            parent,
            cut,
            left,
            right: new,
        },
        _ => Row::Bad,
    }
}
