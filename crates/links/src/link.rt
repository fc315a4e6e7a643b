// What a row links to, and what it is. A row that is not of the kind asked for has no link.
// No link is the number `NONE` and no Option: the definitions of calls, which theorems cite, give numbers, as the words do. The functions are no
// methods of `Row`: that stands in rows, below calls, which defines them.
ghost use Rattle.std.specs.Prelude.{◌≡◌};
ghost use Rattle.calls.specs.Link.{next_of, parent_of, sibling_of, links_to, is_leaf, is_cut, is_tree, is_free, holds_point, leaf_point, leaf_curve};

use points::order::same_point;
use points::pick::pick;
use points::point::Point;
use points::word::point_at;
use rows::row::Row;
use words::layout::NONE;

// The next link of a free row.
pub fn next_of(row: Row) -> u32
    ensures { result ≡ next_of row }
{
    match row {
        Row::Spare { next, .. } | Row::Removed { next, .. } => next,
        _ => NONE,
    }
}

// The parent link of a row of the tree.
pub fn parent_of(row: Row) -> u32
    ensures { result ≡ parent_of row }
{
    match row {
        Row::Leaf { parent, .. } | Row::Cut { parent, .. } => parent,
        _ => NONE,
    }
}

// The other child of a cut.
pub fn sibling_of(child: u32, row: Row) -> u32
    ensures { result ≡ sibling_of child row }
{
    match row {
        Row::Cut { left, right, .. } => pick(left == child, right, left),
        _ => NONE,
    }
}

// Whether a row is a cut that has the child.
pub fn links_to(child: u32, row: Row) -> bool
    ensures { result ≡ links_to child row }
{
    match row {
        Row::Cut { left, right, .. } => (left == child) | (right == child),
        _ => false,
    }
}

// Whether a row is a leaf.
pub fn is_leaf(row: Row) -> bool
    ensures { result ≡ is_leaf row }
{
    matches!(row, Row::Leaf { .. })
}

// Whether a row is a cut.
pub fn is_cut(row: Row) -> bool
    ensures { result ≡ is_cut row }
{
    matches!(row, Row::Cut { .. })
}

// Whether a row is one of the tree.
pub fn is_tree(row: Row) -> bool
    ensures { result ≡ is_tree row }
{
    matches!(row, Row::Leaf { .. } | Row::Cut { .. })
}

// Whether a row is free.
pub fn is_free(row: Row) -> bool
    ensures { result ≡ is_free row }
{
    matches!(row, Row::Spare { .. } | Row::Removed { .. })
}

// Whether a row is a leaf with the point.
pub fn holds_point(p: Point, row: Row) -> bool
    ensures { result ≡ holds_point p row }
{
    match row {
        Row::Leaf { point, .. } => same_point(point, p),
        _ => false,
    }
}

// The point of a leaf.
pub fn leaf_point(row: Row) -> Point
    ensures { result ≡ leaf_point row }
{
    match row {
        Row::Leaf { point, .. } => point,
        _ => point_at(0, 0, 0, 0, 0),
    }
}

// The curve of a leaf.
pub fn leaf_curve(row: Row) -> u32
    ensures { result ≡ leaf_curve row }
{
    match row {
        Row::Leaf { curve, .. } => curve,
        _ => 0,
    }
}
