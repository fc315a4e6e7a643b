// Runs the cases that the claims about a window speak of, and prints a line for each.
#![tactic(auto)]

mod list;
mod tally;

use crate::list::{Listed, history, state, summary_of, try_reading, try_refused};
use crate::tally::Tally;
use window::begin::begin;
use window::lent::window_begin;
use window::refusal::WindowRefusal;
use window::steady::is_steady;
use window::update::update;
use window::window::Window;

// The state with another number at a position.
fn with_number(mut window: Window, position: usize, number: u32) -> Window {
    if position < 64 {
        window.readings[position] = number;
    }
    window
}

// A length begins a window, or is refused and leaves the state; the same where the state is lent.
fn try_length(tally: &mut Tally, window: Window, length: u32, fits: bool) {
    let mut lent = window;
    let number = window_begin(&mut lent, length);
    let (expected, left, told) = if fits {
        (Ok(state(length, 0)), state(length, 0), 0)
    } else {
        (Err(WindowRefusal::BadWindow), window, 18)
    };
    tally.tried();
    tally.judge(begin(window, length) == expected);
    tally.judge(number == told && lent == left);
}

// Lengths at the ends of their range, on a state that readings leave, and on one that no readings leave.
fn lengths(rt: &impl Print, tally: &mut Tally) {
    let table = [
        (0, false),
        (1, true),
        (64, true),
        (65, false),
        (u32::MAX, false),
    ];
    for (length, fits) in table {
        try_length(tally, state(12, 5), length, fits);
        try_length(tally, state(77, 99), length, fits);
    }
    tally.end_case(rt, "lengths 0, 1, 64, 65 and 4,294,967,295");
}

// Readings at the ends of their range.
fn readings(rt: &impl Print, tally: &mut Tally) {
    let mut list = Listed::new();
    let mut window = state(64, 0);
    for reading in [0, 10000, 10001, u32::MAX] {
        try_reading(tally, &mut list, &mut window, reading);
    }
    tally.end_case(rt, "readings 0, 10,000, 10,001 and 4,294,967,295");
}

// The sum and the mean with one more reading. Gives the window with it.
fn try_mean(tally: &mut Tally, window: Window, reading: u32, sum: u32, mean: u32) -> Window {
    tally.tried();
    match update(window, reading) {
        Ok((next, told)) => {
            tally.judge(told.sum == sum && told.mean == mean);
            next
        }
        Err(_) => {
            tally.judge(false);
            window
        }
    }
}

// Means that end in a half, in a third and in two thirds, and the mean of 64 times 10,000. Each row is a window of its own: readings, and the sum and the mean after each.
fn means(rt: &impl Print, tally: &mut Tally) {
    let table = [
        [(1, 1, 1), (2, 3, 2), (2, 5, 2)],
        [(1, 1, 1), (1, 2, 1), (2, 4, 1)],
        [(0, 0, 0), (1, 1, 1), (0, 1, 0)],
    ];
    for row in table {
        let mut window = state(64, 0);
        for (reading, sum, mean) in row {
            window = try_mean(tally, window, reading, sum, mean);
        }
    }
    let wet = Window {
        length: 64,
        present: 64,
        readings: [10000; 64],
    };
    try_mean(tally, wet, 10000, 640000, 10000);
    tally.end_case(rt, "means, a half rounded up");
}

// A window at each length beside a list.
fn histories(rt: &impl Print, tally: &mut Tally) {
    let table = [
        (1, "length 1, beside a list"),
        (2, "length 2, beside a list"),
        (3, "length 3, beside a list"),
        (12, "length 12, beside a list"),
        (63, "length 63, beside a list"),
        (64, "length 64, beside a list"),
    ];
    for (length, name) in table {
        history(tally, length);
        tally.end_case(rt, name);
    }
}

// A state that no readings leave refuses a reading in range and one out of range alike.
fn try_bad(tally: &mut Tally, window: &Window) {
    try_refused(tally, window, 0, WindowRefusal::BadWindow);
    try_refused(tally, window, 10001, WindowRefusal::BadWindow);
}

// Lengths out of range.
fn bad_lengths(rt: &impl Print, tally: &mut Tally) {
    try_bad(tally, &state(0, 0));
    try_bad(tally, &state(65, 64));
    tally.end_case(rt, "states of length 0 and 65");
}

// One reading more present than each length.
fn more_present(rt: &impl Print, tally: &mut Tally) {
    for n in 1..65 {
        try_bad(tally, &state(n, n + 1));
    }
    tally.end_case(rt, "states with more readings present than the length");
}

// A number at each position of the readings present, or at each one behind them.
fn try_positions(tally: &mut Tally, window: Window, behind: bool, number: u32) {
    for position in 0..64 {
        if (position < window.present as usize) != behind {
            try_bad(tally, &with_number(window, position, number));
        }
    }
}

// In the shortest window and in the longest, with each number of readings present.
fn bad_positions(rt: &impl Print, tally: &mut Tally, behind: bool, number: u32, name: &str) {
    for present in 0u32..65 {
        try_positions(tally, state(present.max(1), present), behind, number);
        try_positions(tally, state(64, present), behind, number);
    }
    tally.end_case(rt, name);
}

// Whether a window is steady.
fn try_steady(tally: &mut Tally, window: Window, spread: u32, steady: bool) {
    tally.tried();
    tally.judge(is_steady(window, spread) == steady);
}

// A full window of two readings or more at its spread and at one less, and with a reading out of range.
fn try_full(tally: &mut Tally, window: Window) {
    let (present, _) = window.readings.split_at((window.present as usize).min(64));
    let told = summary_of(present);
    let spread = told.greatest.wrapping_sub(told.least);
    try_steady(tally, window, spread, true);
    try_steady(tally, window, spread.wrapping_sub(1), false);
    try_steady(tally, with_number(window, 0, 10001), u32::MAX, false);
}

// At each length a full window and one that lacks a reading, and a state of length 0.
fn spreads(rt: &impl Print, tally: &mut Tally) {
    try_steady(tally, state(0, 0), u32::MAX, false);
    try_steady(tally, state(1, 0), u32::MAX, false);
    try_steady(tally, state(1, 1), 0, true);
    for n in 1..64 {
        try_steady(tally, state(n + 1, n), u32::MAX, false);
        try_full(tally, state(n + 1, n + 1));
    }
    tally.end_case(rt, "steady: full, and within the spread");
}

fn main(rt: HostRuntime) {
    let mut tally = Tally::default();
    lengths(&rt, &mut tally);
    readings(&rt, &mut tally);
    means(&rt, &mut tally);
    histories(&rt, &mut tally);
    bad_lengths(&rt, &mut tally);
    more_present(&rt, &mut tally);
    let present = "states with a reading of 10,001, at each place";
    bad_positions(&rt, &mut tally, false, 10001, present);
    let behind = "states with a number behind, at each place";
    bad_positions(&rt, &mut tally, true, 1, behind);
    spreads(&rt, &mut tally);
    tally.end(&rt);
}
