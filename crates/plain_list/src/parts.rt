// The cases of a text: each begins after an equals sign, and ends where the next begins or where a remark does. A remark begins with a number sign.

// Up to where a byte stands first; the whole text where it stands nowhere.
pub fn before(text: &[u8], byte: u8) -> &[u8] {
    match text.iter().position(|other| *other == byte) {
        Some(end) => &text[..end],
        None => text,
    }
}

// What stands before the first case or remark.
pub fn head(text: &[u8]) -> &[u8] {
    before(before(text, b'='), b'#')
}

// A text without an equals sign at its end, after which no case begins.
pub fn begun(text: &[u8]) -> &[u8] {
    text.strip_suffix(b"=").unwrap_or(text)
}

// Whether a text has a case.
pub fn has_case(text: &[u8]) -> bool {
    begun(text).contains(&b'=')
}
