// Whose turn it is: the questions about a station's unfinished call, of a step as of a withdrawal.
ghost use Rattle.std.specs.Prelude.{◌≡◌};
ghost use Rattle.calls.specs.Step.{fields_sound};
ghost use Rattle.calls.specs.Turn.{turn_of};

use calls::turn::Turn;
use stations::call::{Call, call_sound, read_call};
use stations::common::{common_sound, is_opened, rows_in};
use stations::counts::read_counts;
use stations::station::read_state;
use words::layout::STATIONS;
use words::refusal::{Refusal, ask};
use words::rule::read_rule;

// Whether the fields of the common record and of the call are in range. This and the questions stand in line in the compiled step and in the withdrawal: called, they
// make a search step 7 in a hundred longer.
#[inline(always)]
#[tactic(auto, unfolding(calls::specs::Step::fields_sound))]
fn records_sound(words: &[u32], rows: u32, call: Call) -> bool
    ensures { result ≡ fields_sound words.now rows call }
{
    common_sound(words, rows) & call_sound(read_rule(words), call, read_counts(words).changes)
}

// The unfinished call of a station, or the first of questions 4, 5, 10 and 11 that fails.
#[inline(always)]
#[tactic(auto, unfolding(calls::specs::Turn::turn_of))]
pub(crate) fn turn_of(words: &[u32], s: u32) -> Result<Turn, Refusal>
    ensures { result ≡ turn_of words.now s }
{
    let rows = rows_in(words);
    let call = read_call(words, s);
    ask(is_opened(words), Refusal::NotOpened)?;
    ask(s < STATIONS, Refusal::NoStation)?;
    ask(read_state(words, s).is_unfinished(), Refusal::NotUnfinished)?;
    ask(records_sound(words, rows, call), Refusal::Unsound)?;
    Ok(Turn { rows, s, call })
}
