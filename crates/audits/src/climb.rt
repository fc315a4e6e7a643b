// The climb of a leaf: by parent links to the root, where each cut on the way sends the leaf's point to the row that the climb came from.
ghost use Rattle.std.specs.Prelude.{◌≡◌};
ghost use Rattle.calls.specs.Climb.{child_of, stopped, over_cut, over_row, climb};

use crate::tree::Rooted;
use calls::climb::Climb;
use points::cut::{Cut, goes_left};
use points::point::Point;
use rows::row::Row;
use words::layout::NONE;

// The link of a cut on the side that it sends the point to.
fn child_of(cut: Cut, left: u32, right: u32, point: Point) -> u32
    ensures { result ≡ child_of cut left right point }
{
    if goes_left(cut, point) { left } else { right }
}

// No cut: the climb ends here.
fn stopped(c: Climb) -> Climb
    ensures { result ≡ stopped c }
{
    Climb {
        up: NONE,
        sound: false,
        ..c
    }
}

// Up to a cut whose link on the point's side is `child`.
fn over_cut(c: Climb, child: u32, over: u32) -> Climb
    ensures { result ≡ over_cut c child over }
{
    Climb {
        from: c.up,
        up: over,
        sound: c.sound & (child == c.from),
    }
}

// One row up.
fn over_row(point: Point, c: Climb, row: Row) -> Climb
    ensures { result ≡ over_row point c row }
{
    if let Row::Cut {
        parent: over,
        cut,
        left,
        right,
    } = row
    {
        over_cut(c, child_of(cut, left, right, point), over)
    } else {
        stopped(c)
    }
}

impl<'a> Rooted<'a> {
    // Whether a leaf with this parent link climbs to the root, each cut on the way sending its point to the row below. After a row that doesn't, none is looked at.
    pub(crate) fn climbs(self, point: Point, r: u32, parent: u32) -> bool
        ensures { result ≡ climb self.entry.words.now self.entry.rows self.entry.root point self.entry.rows r parent }
    {
        let mut c = Climb {
            from: r,
            up: parent,
            sound: true,
        };
        for _ in 0..self.rows {
            if (c.up == NONE) | !c.sound {
                break;
            }
            c = over_row(point, c, self.row(c.up));
        }
        c.sound & ((c.up == NONE) & (c.from == self.root))
    }
}
