// What the frame runner prints, text by text: the header, then the line of each frame.
ghost use Rattle.std.specs.Prelude.{◌≡◌};
ghost use Rattle.lines.specs.Line.{told};
ghost use Rattle.texts.specs.Output.{begun, next_at, next_of, next_words};

use crate::line::{header, line_text};
use crate::text::Text;
use lines::line::{Line, next_line, told};

// The text to print, how many lines there were, and the position of the next frame; none where there is no more.
#[derive(Clone, Copy)]
pub struct Output {
    pub text: Text,
    pub ordinal: u64,
    pub at: Option<usize>,
}

// The header.
#[tactic(auto, unfolding(crate::specs::Output::begun))]
pub fn begin() -> Output
    ensures { result ≡ begun }
{
    Output {
        text: header(),
        ordinal: 0,
        at: Some(0),
    }
}

// The position to go on from after a line.
fn next_at(line: Line) -> Option<usize>
    ensures { result ≡ next_at (told line) }
{
    match line {
        Some(Ok((_, next))) => Some(next),
        None | Some(Err(_)) => None,
    }
}

// The next: the frame at the position is read and applied to the words, where there is one; the greatest ordinal stays.
#[tactic(auto, unfolding(crate::specs::Output::silent, crate::specs::Output::after_line, crate::specs::Output::next_of, crate::specs::Output::next_words))]
pub fn next(words: &mut [u32], bytes: &[u8], output: Output) -> Output
    ensures { (result ≡ next_of words.old bytes.now output) × (words.new ≡ next_words words.old bytes.now output) }
{
    let Some(at) = output.at else {
        return Output {
            text: Text::empty(),
            ..output
        };
    };
    let line = next_line(words, bytes, at);
    let ordinal = output.ordinal.saturating_add(1);
    Output {
        text: line_text(ordinal, told(line)),
        ordinal,
        at: next_at(line),
    }
}
