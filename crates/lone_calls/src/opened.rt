// Frames that open, made here byte by byte: each is read and written back, and then given to the index.
use crate::framed::{NEVER, first_number};
use frames::read::read_frame;
use frames::write::write_frame;

// Whether the bytes are those of one frame, which is written back as it was, and no more.
fn is_written_back(bytes: &[u8]) -> bool {
    let Some(Ok((frame, next))) = read_frame(bytes, 0) else {
        return false;
    };
    let written = write_frame(frame);
    next == bytes.len() && written.count == bytes.len() && written.bytes.starts_with(bytes)
}

// The number of a frame's line; one that no call gives where the frame is not written back as it was.
fn line_number(words: &mut [u32], bytes: &[u8]) -> u32 {
    if is_written_back(bytes) {
        first_number(words, bytes)
    } else {
        NEVER
    }
}

// The number of an opening of an item, as a frame of kind 7 with places, limit, factors and rule, its first bytes being those of a shorter kind that has
// less of these: kind 1 has no factors, kind 6 no rule.
fn opened(words: &mut [u32], n: [u32; 9], length: u8, kind: u8) -> u32 {
    let [_, places, limit, weight, moisture, speed, draw, rule, _] = n;
    let numbers = [
        u32::from(length),
        u32::from(kind),
        places,
        limit,
        limit >> 16,
        weight,
        moisture,
        speed,
        draw,
        rule,
    ];
    let mut bytes = [0; 20];
    for (pair, number) in bytes.chunks_exact_mut(2).zip(numbers.iter()) {
        if let [first, second] = pair {
            let [low, high, ..] = number.to_le_bytes();
            *first = low;
            *second = high;
        }
    }
    match bytes.get(..2 + usize::from(length)) {
        Some(frame) => line_number(words, frame),
        None => NEVER,
    }
}

// Three openings, one line each over one function, since a text names each by a letter of its own. The number of one without factors: a frame of kind 1.
pub fn opened_plain(words: &mut [u32], n: [u32; 9]) -> u32 {
    opened(words, n, 8, 1)
}

// The number of an opening with factors: a frame of kind 6.
pub fn opened_scaled(words: &mut [u32], n: [u32; 9]) -> u32 {
    opened(words, n, 16, 6)
}

// The number of an opening with factors and a rule: a frame of kind 7.
pub fn opened_ruled(words: &mut [u32], n: [u32; 9]) -> u32 {
    opened(words, n, 17, 7)
}
