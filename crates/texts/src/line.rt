// The text of the header and of a line.
ghost use Rattle.std.specs.Prelude.{◌≡◌};
ghost use Rattle.texts.specs.Text.{text_with, Puts};
ghost use Rattle.texts.specs.Line.{point_bytes, header_bytes, plain_bytes, answer_bytes, line_bytes};

use crate::text::Text;
use lines::line::NumberedLine;
use points::point::Point;
use stations::answer::Answer;

// The header.
pub fn header() -> Text
    ensures { result ≡ text_with header_bytes }
{
    Text::empty().with_bytes(b"frame result code grade weight moisture speed draw curve square\n")
}

// A line that has no answer.
fn plain_line(ordinal: u64, number: u32) -> Text
    ensures { result ≡ text_with (plain_bytes ordinal number) }
{
    Text::empty()
        .field(ordinal)
        .field(u64::from(number))
        .with_bytes(b"- - - - - - - -\n")
}

// The five coordinates of a point.
fn with_point(text: Text, point: Point) -> Text
    ensures { Puts text (point_bytes point) result }
{
    text.signed_field(point.grade)
        .signed_field(point.weight)
        .signed_field(point.moisture)
        .signed_field(point.speed)
        .signed_field(point.draw)
}

// A line with the answer taken.
fn answer_line(ordinal: u64, answer: Answer) -> Text
    ensures { result ≡ text_with (answer_bytes ordinal answer) }
{
    let start = Text::empty()
        .field(ordinal)
        .field(0)
        .field(u64::from(answer.code));
    with_point(start, answer.point)
        .field(u64::from(answer.curve))
        .with_number(answer.square)
        .with_byte(b'\n')
}

// The line with its ordinal; nothing where no byte is left.
#[tactic(auto, unfolding(crate::specs::Line::line_bytes))]
pub fn line_text(ordinal: u64, line: NumberedLine) -> Text
    ensures { result ≡ text_with (line_bytes ordinal line) }
{
    match line {
        None => Text::empty(),
        Some(Err(number)) => plain_line(ordinal, number),
        Some(Ok((Err(number), _))) => plain_line(ordinal, number),
        Some(Ok((Ok(None), _))) => plain_line(ordinal, 0),
        Some(Ok((Ok(Some(answer)), _))) => answer_line(ordinal, answer),
    }
}
