// A search goes around the tree: down to the near child of each cut, and up again, over to the far child where that side may hold a record
// that is chosen over the best. It goes to no side whose grades do not admit the target's slot. On the way up it keeps the parent link of the row where it
// stands, so that each move reads one row, and everywhere the square of the best. Each question is asked in one place, so that a step's moves are compiled
// in line.
ghost use Rattle.std.specs.Prelude.{◌≡◌};
ghost use Rattle.calls.specs.Tour.{shut_at};
ghost use Rattle.calls.specs.Reached.{past_near, past_far, past_side, visit_cut, prevails_at, down_leaf, visit_leaf, visit_row, at_top, move_to, moved};

use crate::progress::may_find;
use crate::reached::{NO_SQUARE, go_to, go_up, refused};
use calls::aim::Aim;
use calls::progress::Progress;
use calls::reached::Reached;
use links::link::is_tree;
use points::choice::{aims_left, chosen_at, far_side_excluded};
use points::cut::Cut;
use points::pick::pick;
use points::point::Point;
use points::square::square;
use rows::grades::admits;
use rows::row::{Row, read_row};
use rows::tree::{child_at, read_tree};
use stations::call::Best;
use stations::track::{DOWN, UP};
use words::layout::NONE;

// The cut in row x as a search meets it: its parent link, the child on the target's side and the other one, and whether the target goes left.
#[derive(Clone, Copy)]
struct Sides {
    x: u32,
    parent: u32,
    near: u32,
    far: u32,
    cut: Cut,
    goes: bool,
}

impl Sides {
    // Past the far side: further up. A row that is no child of the cut is not sound.
    fn past_far(self, reached: Reached) -> Reached
        ensures { result ≡ past_far reached.progress reached.square reached.above self.x self.parent self.far }
    {
        if self.far == reached.progress.cursor {
            go_up(reached, self.x, self.parent)
        } else {
            refused(reached)
        }
    }
}

// A leaf as a search meets it.
#[derive(Clone, Copy)]
struct Leaf {
    parent: u32,
    added: u32,
    point: Point,
    curve: u32,
}

impl Leaf {
    // Whether its record, at its own square, prevails over the best so far: `prevails` of `progress`, with both squares known.
    fn prevails(self, aim: Aim, reached: Reached, own: u64) -> bool
        ensures { result ≡ prevails_at aim reached.progress.best reached.square self.added self.point own }
    {
        let best = reached.progress.best;
        may_find(aim, self.added, self.point)
            && ((best.curve == 0) | chosen_at(own, reached.square, self.point, best.point))
    }

    // Down at the leaf, with its own square: it is considered, and the way leads up.
    fn visit_down(self, aim: Aim, reached: Reached, own: u64) -> Reached
        ensures { result ≡ down_leaf aim reached.progress reached.square self.parent self.added self.point self.curve own }
    {
        if self.prevails(aim, reached, own) {
            Reached {
                above: self.parent,
                square: if self.curve == 0 { NO_SQUARE } else { own },
                progress: Progress {
                    phase: UP,
                    best: Best {
                        curve: self.curve,
                        point: self.point,
                    },
                    ..reached.progress
                },
            }
        } else {
            go_up(reached, reached.progress.cursor, self.parent)
        }
    }

    // At the leaf, which no way up leads to.
    fn visit(self, aim: Aim, reached: Reached) -> Reached
        ensures { result ≡ visit_leaf aim reached self.parent self.added self.point self.curve }
    {
        if reached.progress.phase == DOWN {
            self.visit_down(aim, reached, square(aim.scale, aim.point, self.point))
        } else {
            refused(reached)
        }
    }
}

// What a tour reads: the words with so many rows, what the search looks for, and the slot of the target's grade.
#[derive(Clone, Copy)]
pub(crate) struct Tour<'a> {
    pub(crate) words: &'a [u32],
    pub(crate) rows: u32,
    pub(crate) slot: u32,
    pub(crate) aim: Aim,
}

impl<'a> Tour<'a> {
    // Whether the far side of a cut is shut: the target's slot is not among its grades, or it is excluded.
    fn shuts(self, square: u64, sides: Sides) -> bool
        ensures { result ≡ shut_at self.entry.words.now self.entry.slot self.entry.aim square sides.x sides.cut sides.goes }
    {
        !admits(self.words, sides.x, !sides.goes, self.slot)
            || far_side_excluded(self.aim.scale, sides.cut, self.aim.point, square)
    }

    // Past the near side of a cut: to its far child, or up where that side is shut.
    fn past_near(self, reached: Reached, sides: Sides) -> Reached
        ensures { result ≡ past_near self.entry.words.now self.entry.slot self.entry.aim reached.progress reached.square sides.x sides.parent sides.far sides.cut sides.goes }
    {
        if self.shuts(reached.square, sides) {
            go_up(reached, sides.x, sides.parent)
        } else {
            go_to(reached, sides.far)
        }
    }

    // Past a side of it: the near one on the way down, else that where the search comes from. One place asks of the far side for both ways, so that the
    // question is compiled in line.
    fn past_side(self, reached: Reached, sides: Sides) -> Reached
        ensures { result ≡ past_side self.entry.words.now self.entry.slot self.entry.aim reached sides.x sides.parent sides.near sides.far sides.cut sides.goes }
    {
        let p = reached.progress;
        if (p.phase == DOWN) | (sides.near == p.cursor) {
            self.past_near(reached, sides)
        } else {
            sides.past_far(reached)
        }
    }

    // At the cut in row x: down to its near child where its side admits the slot, else past a side.
    fn visit_cut(self, reached: Reached, x: u32, parent: u32, cut: Cut) -> Reached
        ensures { result ≡ visit_cut self.entry.words.now self.entry.slot self.entry.aim reached x parent cut }
    {
        let goes = aims_left(cut, self.aim.point);
        let near = child_at(self.words, x, goes);
        let far = child_at(self.words, x, !goes);
        if (reached.progress.phase == DOWN) & admits(self.words, x, goes, self.slot) {
            go_to(reached, near)
        } else {
            let sides = Sides {
                x,
                parent,
                near,
                far,
                cut,
                goes,
            };
            self.past_side(reached, sides)
        }
    }

    // At the row x.
    fn visit_row(self, reached: Reached, x: u32, row: Row) -> Reached
        ensures { result ≡ visit_row self.entry.words.now self.entry.slot self.entry.aim reached x row }
    {
        match row {
            Row::Leaf {
                parent,
                added,
                point,
                curve,
            } => {
                let leaf = Leaf {
                    parent,
                    added,
                    point,
                    curve,
                };
                leaf.visit(self.aim, reached)
            }
            Row::Cut { parent, cut, .. } => self.visit_cut(reached, x, parent, cut),
            _ => refused(reached),
        }
    }

    // Up from a row with no parent: the tour is over, if that row is one of the tree.
    fn at_top(self, reached: Reached) -> Reached
        ensures { result ≡ at_top self.entry.words.now self.entry.rows reached }
    {
        if is_tree(read_row(self.words, self.rows, reached.progress.cursor)) {
            go_up(reached, NONE, NONE)
        } else {
            refused(Reached {
                above: NONE,
                ..reached
            })
        }
    }

    // One move, by the row x.
    fn move_to(self, reached: Reached, x: u32) -> Reached
        ensures { result ≡ move_to self.entry.words.now self.entry.rows self.entry.slot self.entry.aim reached x }
    {
        if x == NONE {
            self.at_top(reached)
        } else {
            self.visit_row(reached, x, read_tree(self.words, self.rows, x))
        }
    }

    // One move, unless the tour is over: by the row where the search stands, or by the one above it. Either way one row is read.
    #[tactic(auto, unfolding(calls::specs::Reached::moved))]
    pub(crate) fn move_on(self, reached: Reached) -> Reached
        ensures { result ≡ moved self.entry.words.now self.entry.rows self.entry.slot self.entry.aim reached }
    {
        let p = reached.progress;
        if p.cursor == NONE {
            reached
        } else {
            self.move_to(reached, pick(p.phase == DOWN, p.cursor, reached.above))
        }
    }
}
