// The seed that stands in a text.

// A number after one more digit. It grows no more once it is past 32 bits, which tells that it does not fit.
fn grown(x: u64, digit: u8) -> u64 {
    let d = u64::from(digit % 16);
    if x < 4294967296 { 10 * x + d } else { x }
}

// The first decimal number of a text, which is a seed from 1 to 4294967295; 0, which is none, where the text has no number or another one.
pub fn seed_in(text: &[u8]) -> u32 {
    let mut x = 0;
    for byte in text
        .iter()
        .skip_while(|byte| !byte.is_ascii_digit())
        .take_while(|byte| byte.is_ascii_digit())
    {
        x = grown(x, *byte);
    }
    u32::try_from(x).unwrap_or(0)
}
