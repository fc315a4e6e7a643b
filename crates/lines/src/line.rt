// What the frame runner prints for the next frame, and the position from which it goes on.
ghost use Rattle.std.specs.Prelude.{◌≡◌};
ghost use Rattle.frames.specs.Read.{read_of};
ghost use Rattle.lines.specs.Line.{told, line_of, line_words};

use crate::apply::{Outcome, apply_frame};
use frames::refusal::FrameRefusal;
use readers::reader::frame_at;
use stations::answer::Answer;

// The next line: none where no byte is left; a refusal of the reading, after which the runner stops; or what a frame gave, with the position to go on
// from.
pub type Line = Option<Result<(Outcome, usize), FrameRefusal>>;

// A line with a number in each refusal's place: any number, also one that no refusal has.
pub type NumberedLine = Option<Result<(Result<Option<Answer>, u32>, usize), u32>>;

// Reads the frame at a position and applies it to the words.
#[tactic(auto, unfolding(crate::specs::Line::line_of, crate::specs::Line::line_words))]
pub fn next_line(words: &mut [u32], bytes: &[u8], at: usize) -> Line
    ensures { (told result ≡ line_of words.old (read_of bytes.now at)) × (words.new ≡ line_words words.old (read_of bytes.now at)) }
{
    match frame_at(bytes, at)? {
        Ok((frame, next)) => Some(Ok((apply_frame(words, frame), next))),
        Err(refusal) => Some(Err(refusal)),
    }
}

// The line with the numbers of its refusals.
pub fn told(line: Line) -> NumberedLine
    ensures { result ≡ told line }
{
    match line? {
        Ok((Ok(given), next)) => Some(Ok((Ok(given), next))),
        Ok((Err(refusal), next)) => Some(Ok((Err(refusal.number()), next))),
        Err(refusal) => Some(Err(refusal.number())),
    }
}
