// The opening of the plain table: what it is asked, and the table that is empty then.
use crate::scale::PlainScale;
use crate::table::{MOST_PLACES, State, Table};

// A question: its number, where it fails. Rules 7 fixes the numbers, and the list tells them by itself, so that those of the index are judged by them.
pub fn ask(passes: bool, number: u32) -> Result<(), u32> {
    if passes { Ok(()) } else { Err(number) }
}

impl Table {
    // An opening in so many words: the number of the first of questions 1, 2, 20, 17 and 3, asked in this order, that fails; the table is as it was then.
    pub fn open(
        &mut self,
        length: usize,
        places: u32,
        limit: u32,
        scale: PlainScale,
    ) -> Result<(), u32> {
        ask(1 <= places && places as usize <= MOST_PLACES, 1)?;
        ask(1 <= limit && limit <= 500000000, 2)?;
        ask(scale.is_rule(), 20)?;
        ask(scale.in_range(), 17)?;
        ask(608 + 32 * u64::from(places) <= length as u64, 3)?;
        self.places = places;
        self.limit = limit;
        self.scale = scale;
        self.records.clear();
        self.awaited.clear();
        for station in self.stations.iter_mut() {
            station.state = State::Idle;
            station.changes = 0;
        }
        Ok(())
    }
}
