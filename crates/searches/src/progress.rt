// How far a search has come: what a record that is considered makes of the best.
ghost use Rattle.std.specs.Prelude.{◌≡◌};
ghost use Rattle.calls.specs.Progress.{better, may_find, prevails, considered};

use calls::aim::Aim;
use points::choice::{chosen_over, same_grade};
use points::point::Point;
use stations::call::Best;

// Whether there is no best, or the point is chosen over it. A best of curve 0 is none: the words hold it so (`no_best`), and it is read and written as it stands.
fn better(aim: Aim, best: Best, point: Point) -> bool
    ensures { result ≡ better aim best point }
{
    best.curve == 0 || chosen_over(aim.scale, aim.point, point, best.point)
}

// Whether a record is one that the search may find: its number is at most as-of, and its grade is the target's.
pub(crate) fn may_find(aim: Aim, added: u32, point: Point) -> bool
    ensures { result ≡ may_find aim added point }
{
    (added <= aim.asof) & same_grade(aim.point, point)
}

// Whether a record is one that the search may find, and is better than the best so far.
fn prevails(aim: Aim, best: Best, added: u32, point: Point) -> bool
    ensures { result ≡ prevails aim best added point }
{
    may_find(aim, added, point) && better(aim, best, point)
}

// The best after a record was considered.
#[tactic(auto, unfolding(calls::specs::Progress::considered))]
pub(crate) fn consider(aim: Aim, best: Best, added: u32, point: Point, curve: u32) -> Best
    ensures { result ≡ considered aim best added point curve }
{
    if prevails(aim, best, added, point) {
        Best { curve, point }
    } else {
        best
    }
}
