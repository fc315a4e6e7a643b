// Numbers in bytes at an offset, the lowest byte first.
ghost use Rattle.std.specs.Prelude.{◌≡◌, ℕ, ◌<◌, ◌^◌, refl};
ghost use Rattle.numbers.specs.Bytes.{number_at, put_number};
ghost use Rattle.numbers.specs.Signed.{signed_of, unsigned_of};
ghost use Rattle.numbers.specs.SameBits.{unsigned_signed};

use crate::bytes::{bytes_at, put_bytes};

// A number that fills some bytes. Each type has its own `get` and `put`, since `from_le_bytes` and `to_le_bytes` are methods of no trait.
pub trait Number: Copy {
    // How many bytes it fills.
    ghost size: { ℕ };

    // The number without a sign that has the same bytes, and the way back.
    ghost bits: { Self → ℕ };

    ghost of_bits: { ℕ → Self };

    // The number at an offset; a byte that is not there is 0.
    fn get(bytes: &[u8], at: u8) -> Self
        ensures { result ≡ of_bits (number_at size bytes.now at) };

    // Writes the number at an offset; a byte that is not there is not written.
    fn put(self, bytes: &mut [u8], at: u8)
        ensures { bytes.new ≡ put_number size bytes.old at (bits self) };

    // Any bytes are those of the number that they are read as.
    ghost same_bits: { (w : ℕ) → w < 256 ^ size → bits (of_bits w) ≡ w };
}

impl Number for u8 {
    ghost size = { 1 };

    ghost bits = { λ x. x };

    ghost of_bits = { λ w. w };

    ghost same_bits = { λ w h. refl };

    #[tactic(auto, unfolding(crate::specs::Bytes::number_at))]
    fn get(bytes: &[u8], at: u8) -> u8 {
        u8::from_le_bytes(bytes_at(bytes, at))
    }

    #[tactic(auto, unfolding(crate::specs::Bytes::put_number))]
    fn put(self, bytes: &mut [u8], at: u8) {
        put_bytes(bytes, at, &u8::to_le_bytes(self));
    }
}

impl Number for u16 {
    ghost size = { 2 };

    ghost bits = { λ x. x };

    ghost of_bits = { λ w. w };

    ghost same_bits = { λ w h. refl };

    #[tactic(auto, unfolding(crate::specs::Bytes::number_at))]
    fn get(bytes: &[u8], at: u8) -> u16 {
        u16::from_le_bytes(bytes_at(bytes, at))
    }

    #[tactic(auto, unfolding(crate::specs::Bytes::put_number))]
    fn put(self, bytes: &mut [u8], at: u8) {
        put_bytes(bytes, at, &u16::to_le_bytes(self));
    }
}

impl Number for u32 {
    ghost size = { 4 };

    ghost bits = { λ x. x };

    ghost of_bits = { λ w. w };

    ghost same_bits = { λ w h. refl };

    #[tactic(auto, unfolding(crate::specs::Bytes::number_at))]
    fn get(bytes: &[u8], at: u8) -> u32 {
        u32::from_le_bytes(bytes_at(bytes, at))
    }

    #[tactic(auto, unfolding(crate::specs::Bytes::put_number))]
    fn put(self, bytes: &mut [u8], at: u8) {
        put_bytes(bytes, at, &u32::to_le_bytes(self));
    }
}

impl Number for i32 {
    ghost size = { 4 };

    ghost bits = { unsigned_of };

    ghost of_bits = { signed_of };

    ghost same_bits = { unsigned_signed };

    #[tactic(auto, unfolding(crate::specs::Signed::signed_of))]
    fn get(bytes: &[u8], at: u8) -> i32 {
        u32::get(bytes, at).cast_signed()
    }

    #[tactic(auto, unfolding(crate::specs::Signed::unsigned_of))]
    fn put(self, bytes: &mut [u8], at: u8) {
        self.cast_unsigned().put(bytes, at);
    }
}
