// Sheets that lie near each other in dry weight, from the generator.
use plain_list::book::Book;

// A weight and a moisture, each counted from the least of its axis.
#[derive(Clone, Copy)]
pub struct Sheet {
    pub weight: u32,
    pub moisture: u32,
}

// Eight sheets of one dry weight, 60,000,000, and one of the greatest dry weight.
const SHEETS: [(u32, u32); 9] = [
    (6000, 0),
    (6250, 400),
    (7500, 2000),
    (8000, 2500),
    (10000, 4000),
    (12000, 5000),
    (60000, 9000),
    (100000, 9400),
    (100000, 0),
];

// Nearly all water: dry weights 1, 10,001 and 20,001, which lie as far apart as one speed does from the next.
fn wet_sheet(book: &mut Book) -> (u32, u32) {
    match book.below(3) {
        0 => (1, 9999),
        1 => (10001, 9999),
        _ => (20001, 9999),
    }
}

// One of these, weight and moisture, a wet one in three of twelve cases.
fn plain_sheet(book: &mut Book) -> (u32, u32) {
    let n = book.below(12) as usize;
    match SHEETS.get(n) {
        Some(sheet) => *sheet,
        None => wet_sheet(book),
    }
}

// One of these, or now and then one that is heavier or wetter by one. So a moisture may be 10,000, and a weight past its range.
pub fn some_sheet(book: &mut Book) -> Sheet {
    let (heavy, moisture) = plain_sheet(book);
    let weight = heavy.saturating_sub(1);
    match book.below(8) {
        0 => Sheet {
            weight: heavy,
            moisture,
        },
        1 => Sheet {
            weight,
            moisture: moisture.saturating_add(1),
        },
        _ => Sheet { weight, moisture },
    }
}
