// An answer is written: it waits at the station, whose call stands nowhere in the tree any more and holds no place back.
ghost use Rattle.std.specs.Prelude.{◌≡◌};
ghost use Rattle.calls.specs.Answer.{let_go, answered_words};

use stations::answer::{Answer, write_answer};
use stations::station::{read_state, write_state};
use stations::track::{nowhere, write_track};

// The call of station s stands nowhere.
#[tactic(auto, unfolding(calls::specs::Answer::let_go))]
fn let_go(words: &mut [u32], s: u32)
    ensures { words.new ≡ let_go words.old s }
{
    write_track(words, s, nowhere());
}

// The answer waits at station s.
#[tactic(auto, unfolding(calls::specs::Answer::answered_words))]
pub fn write_answered(words: &mut [u32], s: u32, answer: Answer)
    ensures { words.new ≡ answered_words words.old s answer }
{
    let state = read_state(words, s);
    write_answer(words, s, answer);
    write_state(words, s, state.answered());
    let_go(words, s);
}
