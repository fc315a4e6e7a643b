// Slices of words that are read, written, copied and compared. Outside of a slice 0 is read, and nothing is written.

// The word at an offset.
pub fn word(words: &[u32], at: usize) -> u32 {
    words.get(at).copied().unwrap_or(0)
}

// Writes the word at an offset.
pub fn put_word(words: &mut [u32], at: usize, value: u32) {
    if let Some(word) = words.get_mut(at) {
        *word = value;
    }
}

// Copies a slice to the start of another, as far as both go.
pub fn copy(from: &[u32], to: &mut [u32]) {
    for (new, old) in to.iter_mut().zip(from) {
        *new = *old;
    }
}

// Whether two slices agree from an offset up to another.
pub fn same(a: &[u32], b: &[u32], from: usize, end: usize) -> bool {
    (from..end).all(|at| word(a, at) == word(b, at))
}

// Whether a slice agrees with another from an offset to its end.
pub fn same_from(a: &[u32], b: &[u32], from: usize) -> bool {
    same(a, b, from, a.len())
}
