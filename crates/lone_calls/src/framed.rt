// A frame that is made of a length and a kind, given to the index.
use lines::line::next_line;
use words::refusal::number_told;

// A number that no call gives.
pub const NEVER: u32 = 99;

// The number of the line of the first frame: 0 where there is none, and for an answer.
pub fn first_number(words: &mut [u32], bytes: &[u8]) -> u32 {
    match next_line(words, bytes, 0) {
        None => 0,
        Some(Err(refusal)) => refusal.number(),
        Some(Ok((outcome, _))) => number_told(outcome),
    }
}

// A frame of this length and kind, and zeros behind, of which the first n bytes are there; the number of its line.
pub fn framed(words: &mut [u32], n: u32, length: u32, kind: u32) -> u32 {
    let [length_low, length_high, ..] = length.to_le_bytes();
    let [kind_low, kind_high, ..] = kind.to_le_bytes();
    let mut bytes = [0; 20];
    bytes[..4].copy_from_slice(&[length_low, length_high, kind_low, kind_high]);
    match bytes.get(..n as usize) {
        Some(first) => first_number(words, first),
        None => NEVER,
    }
}
