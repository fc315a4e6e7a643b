// A text that is built up by putting bytes behind it.
ghost use Rattle.std.specs.Prelude.{◌≡◌, [], ◌∷◌};
ghost use Rattle.texts.specs.Text.{text_of, text_with, Puts};

const LONGEST: usize = 160;

// Up to 160 bytes, of which the first `len` are the text. The longest line has fewer. It is an array and no String: `header_contract` and
// `line_text_contract` promise a text for every line, and there may be no memory for a String.
#[derive(Clone, Copy)]
pub struct Text {
    bytes: [u8; LONGEST],
    len: usize,
}

// `write!` was tried: its contract tells the text on `Ok` only, and a writer that never fails is not known to give `Ok`; so `returns-in-Err` of `plain_line` stays open.
impl Text {
    // No text.
    #[tactic(auto, unfolding(crate::specs::Text::text_with))]
    pub(crate) fn empty() -> Text
        ensures { result ≡ text_with [] }
    {
        Text {
            bytes: [0; LONGEST],
            len: 0,
        }
    }

    // Its bytes.
    #[tactic(auto, using(crate::proofs::TextLaws::text_within), unfolding(crate::specs::Text::text_of))]
    pub fn as_bytes(&self) -> &[u8]
        ensures { result.now ≡ text_of self.now }
    {
        &self.bytes[..self.len.min(LONGEST)]
    }

    // One byte more; a full text stays.
    #[tactic(auto, using(crate::proofs::TextLaws::byte_full, crate::proofs::TextLaws::byte_more))]
    pub(crate) fn with_byte(mut self, b: u8) -> Text
        ensures { Puts self (b ∷ []) result }
    {
        if self.len < LONGEST {
            self.bytes[self.len] = b;
            self.len += 1;
        }
        self
    }

    // Some bytes more.
    #[tactic(auto, using(crate::proofs::TextLaws::puts_none, crate::proofs::TextLaws::puts_next))]
    pub(crate) fn with_bytes(self, from: &[u8]) -> Text
        ensures { Puts self from.now result }
    {
        let mut text = self;
        for &b in from {
            text = text.with_byte(b);
        }
        text
    }
}
