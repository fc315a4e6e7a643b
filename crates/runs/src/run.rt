// A run: steps of one station, until it is answered.
ghost use Rattle.std.specs.Prelude.{◌≡◌};
ghost use Rattle.words.specs.Refusal.{number_told};
ghost use Rattle.calls.specs.Reply.{replied};
ghost use Rattle.calls.specs.Run.{most_steps, run_of};

use stations::answer::read_waiting;
use stations::common::{is_opened, read_places};
use steps::step::step;
use words::refusal::Refusal;

// The most steps of a run; one where the slice is not opened, which is refused.
#[tactic(auto, unfolding(calls::specs::Run::most_steps))]
fn most_steps(words: &[u32]) -> u64
    ensures { result ≡ most_steps words.now }
{
    if is_opened(words) {
        16 * u64::from(read_places(words)) + 64
    } else {
        1
    }
}

// Gives the station steps until it is answered. A refused step ends the run with its refusal, and the steps before it stand.
#[tactic(auto, using(crate::proofs::RunLaws::run_ended, crate::proofs::RunLaws::run_refused, crate::proofs::RunLaws::run_answered, crate::proofs::RunLaws::run_left), unfolding(calls::specs::Run::run_of, calls::specs::Run::run_for, calls::specs::Run::most_steps))]
pub fn run(words: &mut [u32], s: u32) -> Result<(), Refusal>
    ensures { replied (number_told result) words.new ≡ run_of words.old s }
{
    for _ in 0..most_steps(words) {
        step(words, s)?;
        if read_waiting(words, s).is_some() {
            return Ok(());
        }
    }
    Ok(())
}
