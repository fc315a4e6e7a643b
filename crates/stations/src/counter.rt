// The counter of a station, in one word of the common record: the changes that the station has made since opening.
ghost use Rattle.std.specs.Prelude.{◌≡◌};
ghost use Rattle.words.specs.Layout.{stations};
ghost use Rattle.stations.specs.Counter.{counter_at, greatest_counter, change_counted};

use crate::station::has_station;
use words::layout::{STATIONS, at_counter};
use words::word::{get, more, put};

// The counter of a station; 0 where there is no such station.
#[tactic(auto, unfolding(crate::specs::Counter::counter_at))]
pub fn read_counter(words: &[u32], s: u32) -> u32
    ensures { result ≡ counter_at words.now s }
{
    if has_station(words, s) {
        get(words, at_counter(s))
    } else {
        0
    }
}

// The greatest of the eight counters.
#[tactic(auto, unfolding(crate::specs::Counter::greatest_counter))]
pub(crate) fn greatest_counter(words: &[u32]) -> u32
    ensures { result ≡ greatest_counter words.now stations }
{
    let mut most = 0;
    for s in 0..STATIONS {
        most = most.max(read_counter(words, s));
    }
    most
}

// Counts one more change of a station.
#[tactic(auto, unfolding(crate::specs::Counter::change_counted))]
pub fn count_change(words: &mut [u32], s: u32)
    ensures { words.new ≡ change_counted words.old s }
{
    if has_station(words, s) {
        let at = at_counter(s);
        put(words, at, more(get(words, at)));
    }
}
