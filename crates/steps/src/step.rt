// A step: the work of a station's unfinished call.
ghost use Rattle.std.specs.Prelude.{◌≡◌};
ghost use Rattle.words.specs.Refusal.{number_told};
ghost use Rattle.calls.specs.Reply.{replied};
ghost use Rattle.calls.specs.Step.{work_of, step_of};

use crate::turn::turn_of;
use calls::turn::Turn;
use searches::search::search;
use stations::call::NEAREST_KIND;
use walks::walk::walk;
use words::refusal::Refusal;

// The work of a nearest, and of any other call.
pub(crate) fn work(words: &mut [u32], turn: Turn) -> Result<(), Refusal>
    ensures { replied (number_told result) words.new ≡ work_of words.old turn.rows turn.s turn.call }
{
    if turn.call.kind == NEAREST_KIND {
        search(words, turn)
    } else {
        walk(words, turn)
    }
}

// One step of a station's call, or the first question that fails. All that it needs is read and checked before anything is written.
#[tactic(auto, using(calls::proofs::Questions::step_passes, calls::proofs::Questions::step_refuses))]
pub fn step(words: &mut [u32], s: u32) -> Result<(), Refusal>
    ensures { replied (number_told result) words.new ≡ step_of words.old s }
{
    let turn = turn_of(words, s)?;
    work(words, turn)
}
