// Each removal is kept with the stations whose nearest calls were unfinished at its moment, until the last of them is answered or withdrawn.
use crate::table::{Call, State, Table};

impl Table {
    // A removal is set down, if a nearest call is unfinished.
    pub fn set_down(&mut self) {
        let searching = self.stations.map(|station| matches!(
            station.state,
            State::Unfinished(Call::Nearest(_))
        ));
        if searching.contains(&true) && self.awaited.len() < self.awaited.capacity() {
            self.awaited.push_reserved(searching);
        }
    }

    // The call of a station is answered or withdrawn: no removal waits for it any more.
    pub fn release(&mut self, s: u32) {
        for waits in self.awaited.iter_mut() {
            if let Some(search) = waits.get_mut(s as usize) {
                *search = false;
            }
        }
        self.awaited.retain(|waits| waits.contains(&true));
    }
}
