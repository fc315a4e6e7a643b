// What a line of the input says, taken byte by byte. Only its numbers are kept, so no line is too long.

// The name that begins a window.
const NAME: [u8; 6] = *b"window";

// What a line says so far: nothing yet; in a reading and behind it; in the name `window`, after so many letters, and behind it; in a window's length
// and behind it; in its spread and behind it; or what is not understood.
#[derive(Clone, Copy, Debug, PartialEq, Eq)]
pub enum Content {
    Blank,
    InReading(u32),
    Reading(u32),
    InName(usize),
    Name,
    InLength(u32),
    Length(u32),
    InSpread(u32, u32),
    Window(u32, u32),
    Unclear,
}

// A number with one more digit. It stops at the greatest.
fn grown(number: u32, digit: u8) -> u32 {
    number.saturating_mul(10).saturating_add(u32::from(digit))
}

impl Content {
    // A byte comes that neither ends the line nor begins a comment.
    pub fn after(self, byte: u8) -> Content {
        match byte {
            b' ' | b'\t' | b'\r' => self.after_word(),
            b'0'..=b'9' => self.after_digit(byte - b'0'),
            _ => self.after_letter(byte),
        }
    }

    // A separator comes, or the end of the line.
    pub fn after_word(self) -> Content {
        match self {
            Content::InReading(reading) => Content::Reading(reading),
            Content::InName(6) => Content::Name,
            Content::InName(_) => Content::Unclear,
            Content::InLength(length) => Content::Length(length),
            Content::InSpread(length, spread) => Content::Window(length, spread),
            _ => self,
        }
    }

    // A digit comes.
    fn after_digit(self, digit: u8) -> Content {
        match self {
            Content::Blank => Content::InReading(grown(0, digit)),
            Content::InReading(reading) => Content::InReading(grown(reading, digit)),
            Content::Name => Content::InLength(grown(0, digit)),
            Content::InLength(length) => Content::InLength(grown(length, digit)),
            Content::Length(length) => Content::InSpread(length, grown(0, digit)),
            Content::InSpread(length, spread) => Content::InSpread(length, grown(spread, digit)),
            _ => Content::Unclear,
        }
    }

    // A byte comes that is neither a digit nor a separator.
    fn after_letter(self, letter: u8) -> Content {
        let letters = match self {
            Content::Blank => 0,
            Content::InName(letters) => letters,
            _ => return Content::Unclear,
        };
        match NAME.get(letters) {
            Some(next) if *next == letter => Content::InName(letters + 1),
            _ => Content::Unclear,
        }
    }
}
