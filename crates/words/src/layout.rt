// Sizes, by name, and where each word of the slice stands.
ghost use Rattle.std.specs.Prelude.{◌≡◌};
ghost use Rattle.words.specs.Layout.{words_for, at_cursor, at_phase, at_since, at_missed, at_counter, at_target, at_station, at_call, at_best, at_answer, at_row};

// The word for none, which is no row.
pub const NONE: u32 = 4294967295;

// The stations.
pub const STATIONS: u32 = 8;

// The words of the common record, of a station's record, and of a row.
pub const COMMON_SIZE: usize = 96;

const STATION_SIZE: usize = 64;

pub const ROW_SIZE: usize = 16;

// The words of the common record and of the stations, before the rows.
pub const RECORDS: usize = COMMON_SIZE + STATION_SIZE * (STATIONS as usize);

// The places and the rows of the greatest index.
pub const MOST_PLACES: u32 = 4096;

pub const MOST_ROWS: u32 = 2 * MOST_PLACES;

// The greatest change limit, which each station may use up, and the greatest curve number.
pub const MOST_LIMIT: u32 = 500000000;

pub const MOST_CURVE: u32 = 999999;

// The fields of the common record: mark, places, limit, six counts, the four factors, and the rule.
pub const AT_MARK: usize = 0;

pub const AT_PLACES: usize = 1;

pub const AT_LIMIT: usize = 2;

pub const AT_COUNTS: usize = 3;

pub const AT_SCALE: usize = 48;

pub const AT_RULE: usize = 52;

// The words of an index of so many places.
#[tactic(auto, unfolding(crate::specs::Layout::words_for))]
pub fn words_for(places: u32) -> usize
    ensures { result ≡ words_for places }
{
    2 * ROW_SIZE * (places as usize) + RECORDS
}

// The words of a station in the common record: four of its track, its counter, and four of the target of its last search. Each has a function of its name:
// `at_field::<16>(s)` would tell a caller less.
#[tactic(auto, unfolding(crate::specs::Layout::at_cursor))]
pub fn at_cursor(s: u32) -> usize
    ensures { result ≡ at_cursor s }
{
    16 + s as usize
}

#[tactic(auto, unfolding(crate::specs::Layout::at_phase))]
pub fn at_phase(s: u32) -> usize
    ensures { result ≡ at_phase s }
{
    24 + s as usize
}

#[tactic(auto, unfolding(crate::specs::Layout::at_since))]
pub fn at_since(s: u32) -> usize
    ensures { result ≡ at_since s }
{
    32 + s as usize
}

#[tactic(auto, unfolding(crate::specs::Layout::at_missed))]
pub fn at_missed(s: u32) -> usize
    ensures { result ≡ at_missed s }
{
    40 + s as usize
}

#[tactic(auto, unfolding(crate::specs::Layout::at_counter))]
pub fn at_counter(s: u32) -> usize
    ensures { result ≡ at_counter s }
{
    56 + s as usize
}

#[tactic(auto, unfolding(crate::specs::Layout::at_target))]
pub fn at_target(s: u32) -> usize
    ensures { result ≡ at_target s }
{
    64 + 4 * s as usize
}

// The record of a station, and the call, the best and the answer in it.
#[tactic(auto, unfolding(crate::specs::Layout::at_station))]
pub fn at_station(s: u32) -> usize
    ensures { result ≡ at_station s }
{
    COMMON_SIZE + STATION_SIZE * s as usize
}

#[tactic(auto, unfolding(crate::specs::Layout::at_call, crate::specs::Layout::at_station))]
pub fn at_call(s: u32) -> usize
    ensures { result ≡ at_call s }
{
    at_station(s) + 1
}

#[tactic(auto, unfolding(crate::specs::Layout::at_best, crate::specs::Layout::at_station))]
pub fn at_best(s: u32) -> usize
    ensures { result ≡ at_best s }
{
    at_station(s) + 11
}

#[tactic(auto, unfolding(crate::specs::Layout::at_answer, crate::specs::Layout::at_station))]
pub fn at_answer(s: u32) -> usize
    ensures { result ≡ at_answer s }
{
    at_station(s) + 20
}

// The row r.
#[tactic(auto, unfolding(crate::specs::Layout::at_row))]
pub fn at_row(r: u32) -> usize
    ensures { result ≡ at_row r }
{
    RECORDS + ROW_SIZE * (r as usize)
}
