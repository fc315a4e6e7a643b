// Numbers in decimal, put behind a text. With and without a sign are two, since the theorem `decimal_digits` is of `io::decimal`, which has no sign.
ghost use Rattle.std.specs.Prelude.{◌≡◌};
ghost use Rattle.texts.specs.Decimal.{decimal_of, signed_decimal};
ghost use Rattle.texts.specs.Line.{spaced};
ghost use Rattle.texts.specs.Text.{Puts};

use crate::text::Text;

impl Text {
    // A number in decimal.
    #[tactic(auto, using(crate::proofs::DecimalLaws::decimal_digits))]
    pub(crate) fn with_number(self, n: u64) -> Text
        ensures { Puts self (decimal_of n) result }
    {
        let mut digits = [0u8; 20];
        let count = io::decimal(n, &mut digits);
        self.with_bytes(&digits[..count])
    }

    // A signed number, with a minus sign where it is negative.
    #[tactic(auto, using(crate::proofs::TextLaws::puts_both, crate::proofs::DecimalLaws::signed_negative, crate::proofs::DecimalLaws::signed_positive))]
    pub(crate) fn with_signed(self, n: i32) -> Text
        ensures { Puts self (signed_decimal n) result }
    {
        let size = u64::from(n.unsigned_abs());
        if n < 0 {
            self.with_byte(b'-').with_number(size)
        } else {
            self.with_number(size)
        }
    }

    // A number, and a space behind it.
    #[tactic(auto, using(crate::proofs::TextLaws::puts_both))]
    pub(crate) fn field(self, n: u64) -> Text
        ensures { Puts self (spaced (decimal_of n)) result }
    {
        self.with_number(n).with_byte(b' ')
    }

    // A signed number, and a space behind it.
    #[tactic(auto, using(crate::proofs::TextLaws::puts_both))]
    pub(crate) fn signed_field(self, n: i32) -> Text
        ensures { Puts self (spaced (signed_decimal n)) result }
    {
        self.with_signed(n).with_byte(b' ')
    }
}
