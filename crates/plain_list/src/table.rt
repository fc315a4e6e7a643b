// The plain table: what the opening said, the records held in a list, the removals awaited, and the stations. It holds nothing of the index.
use crate::point::PlainPoint;
use crate::scale::PlainScale;
use std::alloc::{AllocError, Global};

// The places of the largest index: as many records are held and removals awaited at most.
pub const MOST_PLACES: usize = 4096;

// A record.
#[derive(Clone, Copy)]
pub struct Record {
    pub point: PlainPoint,
    pub curve: u32,
}

// The codes of answers (Rules 3.2).
#[derive(Clone, Copy, PartialEq, Eq)]
pub enum Code {
    Added = 1,
    Held = 2,
    Full = 3,
    Spent = 4,
    Removed = 5,
    Absent = 6,
    Contained = 7,
    Nearest = 8,
    NoneFound = 9,
    Withdrawn = 11,
}

impl Code {
    // The number of a code.
    pub fn number(self) -> u32 {
        self as u32
    }
}

// The answer that the table expects.
#[derive(Clone, Copy)]
pub struct Due {
    pub code: Code,
    pub point: PlainPoint,
    pub curve: u32,
    pub square: u64,
}

// A call.
#[derive(Clone, Copy)]
pub enum Call {
    Add(Record),
    Remove(PlainPoint),
    Contains(PlainPoint),
    Nearest(PlainPoint),
}

impl Call {
    // The point of a call.
    pub fn point(self) -> PlainPoint {
        match self {
            Call::Add(record) => record.point,
            Call::Remove(point) | Call::Contains(point) | Call::Nearest(point) => point,
        }
    }
}

// What a station is doing.
#[derive(Clone, Copy)]
pub enum State {
    Idle,
    Unfinished(Call),
    Waiting,
}

// A station: what it is doing, the changes that it has made since the opening, and the answer that was set down there last. A nearest has its answer set
// down when it is submitted, any other call when it is answered or withdrawn; neither a taking nor an opening takes it away.
#[derive(Clone, Copy)]
pub struct Station {
    pub state: State,
    pub changes: u32,
    pub due: Option<Due>,
}

// A station is idle, has made no change, and no answer was set down there.
pub const IDLE: Station = Station {
    state: State::Idle,
    changes: 0,
    due: None,
};

#[derive(Drop)]
pub struct Table {
    pub places: u32,
    pub limit: u32,
    pub scale: PlainScale,
    pub records: Vec<Record>,
    // Of each awaited removal the stations whose nearest calls it waits for.
    pub awaited: Vec<[bool; 8]>,
    pub stations: [Station; 8],
}

impl Table {
    // A table that was not opened, with room for the largest index.
    pub fn new(alloc: Global) -> Result<Table, AllocError> {
        Ok(Table {
            places: 0,
            limit: 0,
            scale: PlainScale::ones(),
            records: Vec::with_capacity(alloc, MOST_PLACES)?,
            awaited: Vec::with_capacity(alloc, MOST_PLACES)?,
            stations: [IDLE; 8],
        })
    }

    // What a station is doing. One that there is not does nothing.
    pub fn state(&self, s: u32) -> State {
        self.stations
            .get(s as usize)
            .map_or(State::Idle, |station| station.state)
    }

    // Whether a station is idle.
    pub fn is_idle(&self, s: u32) -> bool {
        matches!(self.state(s), State::Idle)
    }

    // Whether a station's call is unfinished.
    pub fn is_unfinished(&self, s: u32) -> bool {
        matches!(self.state(s), State::Unfinished(_))
    }

    // Whether a station's call is a nearest that is unfinished.
    pub fn is_searching(&self, s: u32) -> bool {
        matches!(self.state(s), State::Unfinished(Call::Nearest(_)))
    }

    // The answer that was set down at a station last, whatever it is doing now.
    pub fn due(&self, s: u32) -> Option<Due> {
        self.stations
            .get(s as usize)
            .and_then(|station| station.due)
    }

    // Places taken: the records held and the removals awaited.
    pub fn taken(&self) -> usize {
        self.records.len().saturating_add(self.awaited.len())
    }

    // Whether every place is taken.
    pub fn is_full(&self) -> bool {
        self.taken() == self.places as usize
    }
}

#[cfg(test)]
mod tests {
    use super::*;

    // There is memory for a table with room for the largest index, and nothing was opened in it.
    #[test]
    fn a_table_begins(rt: HostRuntime) -> Result<(), AllocError> {
        let table = Table::new(rt.alloc())?;
        assert_eq!(rt; table.places, 0);
        assert_eq!(rt; table.taken(), 0);
        assert!(rt; MOST_PLACES <= table.records.capacity());
        assert!(rt; MOST_PLACES <= table.awaited.capacity());
        assert!(rt; table.is_idle(0));
        Ok(())
    }
}
