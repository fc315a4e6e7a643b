// A taking: questions 4, 5 and 12, and the answer that waited at the station. It writes one word.
ghost use Rattle.std.specs.Prelude.{◌≡◌};
ghost use Rattle.calls.specs.Take.{take_of, take_words};

use stations::answer::{Answer, read_waiting};
use stations::common::is_opened;
use stations::station::{read_state, write_state};
use words::layout::STATIONS;
use words::refusal::{Refusal, ask};

// The answer that waits at a station, or the first question that fails.
#[tactic(auto, unfolding(calls::specs::Take::take_of))]
fn taking_at(words: &[u32], s: u32) -> Result<Answer, Refusal>
    ensures { result ≡ take_of words.now s }
{
    ask(is_opened(words), Refusal::NotOpened)?;
    ask(s < STATIONS, Refusal::NoStation)?;
    read_waiting(words, s).ok_or(Refusal::NothingWaits)
}

// Takes the answer that waits at a station, which is idle then; or refuses by the first question that fails, and no word changes.
#[tactic(auto, unfolding(calls::specs::Take::take_words))]
pub fn take(words: &mut [u32], s: u32) -> Result<Answer, Refusal>
    ensures { (result ≡ take_of words.old s) × (words.new ≡ take_words words.old s) }
{
    let answer = taking_at(words, s)?;
    let state = read_state(words, s);
    write_state(words, s, state.emptied());
    Ok(answer)
}
