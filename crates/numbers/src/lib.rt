// Numbers in bytes: of one, two and four bytes, the lowest byte first, and signed ones by the two's complement of 32 bits. An offset is one byte, so
// that the bytes of a number at it are never past the greatest position.
#![tactic(auto)]

mod bytes;
pub mod number;
