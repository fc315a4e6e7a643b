// A withdrawal: the questions of a step, and the call is answered 11. It reads no row.
ghost use Rattle.std.specs.Prelude.{◌≡◌};
ghost use Rattle.words.specs.Refusal.{number_told};
ghost use Rattle.calls.specs.Reply.{replied};
ghost use Rattle.calls.specs.Withdraw.{withdrawn_answer, withdrawn_reply, withdraw_of};

use crate::turn::turn_of;
use calls::turn::Turn;
use links::answer::write_answered;
use stations::answer::{Answer, CODE_WITHDRAWN};
use stations::call::Call;
use words::refusal::Refusal;

// The answer of a withdrawn call.
fn withdrawn_answer(call: Call) -> Answer
    ensures { result ≡ withdrawn_answer call }
{
    Answer {
        code: CODE_WITHDRAWN,
        point: call.point,
        curve: 0,
        square: 0,
    }
}

// The call is taken back.
fn take_back(words: &mut [u32], turn: Turn)
    ensures { replied 0 words.new ≡ withdrawn_reply words.old turn.s turn.call }
{
    write_answered(words, turn.s, withdrawn_answer(turn.call));
}

// Takes back a station's unfinished call, or refuses by the first question that fails; then no word changes.
#[tactic(auto, using(calls::proofs::Questions::withdraw_passes, calls::proofs::Questions::withdraw_refuses))]
pub fn withdraw(words: &mut [u32], s: u32) -> Result<(), Refusal>
    ensures { replied (number_told result) words.new ≡ withdraw_of words.old s }
{
    let turn = turn_of(words, s)?;
    take_back(words, turn);
    Ok(())
}
