// The track of a station's call, in four words of the common record.
ghost use Rattle.std.specs.Prelude.{◌≡◌};
ghost use Rattle.stations.specs.Track.{nowhere, track_at, put_track};

use crate::station::has_station;
use words::layout::{NONE, at_cursor, at_missed, at_phase, at_since};
use words::word::{get, put};

// The phases of a search. They are numbers, since the words hold any number there and `track_at` is what they hold; `onward` and `tour` go by the numbers.
pub const DOWN: u32 = 0;

pub const UP: u32 = 1;

// Where the call stands in the tree, the phase of its search (down or up), the removals at the submission of an unfinished nearest, and the first row freed
// since that its search has not looked at. No Option: `track_at` takes any word for a row, and `track_in` tells whether it is none or one of the index.
#[derive(Clone, Copy)]
pub struct Track {
    pub cursor: u32,
    pub phase: u32,
    pub since: u32,
    pub missed: u32,
}

// The track of a call that stands nowhere and holds no place back.
pub fn nowhere() -> Track
    ensures { result ≡ nowhere }
{
    Track {
        cursor: NONE,
        phase: DOWN,
        since: NONE,
        missed: NONE,
    }
}

// The track of a station; nowhere where there is no such station.
#[tactic(auto, unfolding(crate::specs::Track::track_at))]
pub fn read_track(words: &[u32], s: u32) -> Track
    ensures { result ≡ track_at words.now s }
{
    if has_station(words, s) {
        Track {
            cursor: get(words, at_cursor(s)),
            phase: get(words, at_phase(s)),
            since: get(words, at_since(s)),
            missed: get(words, at_missed(s)),
        }
    } else {
        nowhere()
    }
}

// Writes the track of a station.
#[tactic(auto, unfolding(crate::specs::Track::put_track))]
pub fn write_track(words: &mut [u32], s: u32, track: Track)
    ensures { words.new ≡ put_track words.old s track }
{
    if has_station(words, s) {
        put(words, at_cursor(s), track.cursor);
        put(words, at_phase(s), track.phase);
        put(words, at_since(s), track.since);
        put(words, at_missed(s), track.missed);
    }
}
