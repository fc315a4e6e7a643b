// Bytes at an offset.
ghost use Rattle.std.specs.Prelude.{◌≡◌, ℕ, ◌+◌, ◌<◌, get_or, set};
ghost use Rattle.numbers.specs.Bytes.{put_all};

// The byte so many places from an offset on; one that is not there is 0.
fn byte_at(bytes: &[u8], at: u8, i: usize) -> u8
    ensures { result ≡ get_or bytes.now (at + i) 0 }
{
    bytes
        .get(usize::from(at).saturating_add(i))
        .copied()
        .unwrap_or(0)
}

// The bytes from an offset on; one that is not there is 0.
pub(crate) fn bytes_at<const N: usize>(bytes: &[u8], at: u8) -> [u8; N]
    ensures { (i : ℕ) → i < N → get_or result i 0 ≡ get_or bytes.now (at + i) 0 }
{
    let mut part = [0; N];
    for (i, x) in part.iter_mut().enumerate() {
        *x = byte_at(bytes, at, i);
    }
    part
}

// One byte, at a position.
fn put_byte(bytes: &mut [u8], at: usize, x: u8)
    ensures { bytes.new ≡ set bytes.old at x }
{
    // By index: of what `get_mut` lends the proof keeps no element.
    if at < bytes.len() {
        bytes[at] = x;
    }
}

// Bytes written from an offset on; one that is not there is not written.
pub(crate) fn put_bytes(bytes: &mut [u8], at: u8, part: &[u8])
    ensures { bytes.new ≡ put_all bytes.old at part.now }
{
    for (i, &x) in part.iter().enumerate() {
        put_byte(bytes, usize::from(at) + i, x);
    }
}
