// A window beside a plain list of all readings accepted: its state and its figures are worked out afresh from the end of the list.
use crate::tally::Tally;
use trial::random::Random;
use window::figures::{Figures, Summary};
use window::lent::window_update;
use window::refusal::WindowRefusal;
use window::update::update;
use window::window::{WETTEST, Window};

// The most readings that are listed, as many as a window is handed.
const MOST: usize = 1000;

// All readings that one window accepted, the oldest first. They lie on the stack, so that there is always memory for them.
#[derive(Debug, Drop)]
pub struct Listed {
    readings: [u32; MOST],
    count: usize,
}

impl Listed {
    // No reading yet.
    pub fn new() -> Listed {
        Listed {
            readings: [0; MOST],
            count: 0,
        }
    }

    // One reading more, up to the most.
    fn add(&mut self, reading: u32) {
        if self.count < MOST {
            self.readings[self.count] = reading;
            self.count += 1;
        }
    }

    // The last of them, n where there are so many.
    fn last(&self, n: usize) -> &[u32] {
        let (listed, _) = self.readings.split_at(self.count.min(MOST));
        &listed[listed.len().saturating_sub(n)..]
    }
}

// How many readings there are.
fn number_of(readings: &[u32]) -> u32 {
    u32::try_from(readings.len()).unwrap_or(u32::MAX)
}

// The mean: the quotient, and one more where twice the remainder is n or more.
fn mean_of(sum: u32, n: u32) -> u32 {
    if n == 0 {
        return 0;
    }
    let rest = sum % n;
    let more = n <= rest.wrapping_add(rest);
    (sum / n).wrapping_add(u32::from(more))
}

// The figures of some readings.
pub fn summary_of(readings: &[u32]) -> Summary {
    let sum = readings
        .iter()
        .fold(0u32, |sum, reading| sum.wrapping_add(*reading));
    Summary {
        sum,
        least: readings.iter().copied().min().unwrap_or(0),
        greatest: readings.iter().copied().max().unwrap_or(0),
        mean: mean_of(sum, number_of(readings)),
    }
}

// The window of a length in which these readings are present.
fn window_of(length: u32, present: &[u32]) -> Window {
    let mut readings = [0; 64];
    for (place, reading) in readings.iter_mut().zip(present) {
        *place = *reading;
    }
    Window {
        length,
        present: number_of(present),
        readings,
    }
}

// A state with readings from 1 to 10,000 present, and zeros behind.
pub fn state(length: u32, present: u32) -> Window {
    let mut readings = [0; 64];
    let mut random = Random::new(2026);
    for reading in readings.iter_mut().take(present as usize) {
        *reading = 1 + random.next() % 10000;
    }
    Window {
        length,
        present,
        readings,
    }
}

// A reading is refused. Where the state is lent, it stays, and the number of the refusal stands beside four zeros.
pub fn try_refused(tally: &mut Tally, window: &Window, reading: u32, refusal: WindowRefusal) {
    let mut lent = *window;
    let figures = window_update(&mut lent, reading);
    tally.tried();
    tally.judge(update(*window, reading).err() == Some(refusal));
    tally.judge(figures == Figures::from(refusal) && lent == *window);
}

// A reading is accepted: state and figures are those of the readings listed last, also where the state is lent. It has the reading then.
fn try_accepted(tally: &mut Tally, list: &Listed, window: &mut Window, reading: u32) {
    let present = list.last(window.length as usize);
    let told = summary_of(present);
    let expected = window_of(window.length, present);
    tally.tried();
    match &update(*window, reading) {
        Ok((after, found)) => {
            tally.judge(*found == told);
            tally.judge(*after == expected);
        }
        Err(_) => {
            tally.judge(false);
            tally.judge(false);
        }
    }
    let figures = window_update(window, reading);
    tally.judge(figures == Figures::from(told) && *window == expected);
}

// A reading is handed to a window that has the readings listed last.
pub fn try_reading(tally: &mut Tally, list: &mut Listed, window: &mut Window, reading: u32) {
    if WETTEST < reading {
        try_refused(tally, window, reading, WindowRefusal::BadReading);
    } else {
        list.add(reading);
        try_accepted(tally, list, window, reading);
    }
}

// 1,000 readings to a window of a length, about one in eight of them out of range.
pub fn history(tally: &mut Tally, length: u32) {
    let mut list = Listed::new();
    let mut window = state(length, 0);
    let mut random = Random::new(2026);
    for _ in 0..MOST {
        try_reading(tally, &mut list, &mut window, random.next() % 11430);
    }
    tally.judge((851..900).contains(&list.count));
}
