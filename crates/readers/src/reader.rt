// The reader of frames: it holds the lent bytes and its position, which a refusal does not move.
ghost use Rattle.std.specs.Prelude.{◌≡◌};
ghost use Rattle.frames.specs.Read.{read_of};
ghost use Rattle.readers.specs.Reader.{read_by, moved_past};

use frames::frame::Frame;
use frames::read::{position_after, read_frame};
use frames::refusal::FrameRefusal;

// The lent bytes, and the position in them.
#[derive(Clone, Copy)]
pub struct Reader<'a> {
    bytes: &'a [u8],
    at: usize,
}

impl<'a> Reader<'a> {
    // A reader of the lent bytes, at the first of them.
    pub fn new(bytes: &'a [u8]) -> Reader<'a>
        ensures { (result.bytes ≡ bytes.entry) × (result.at ≡ 0) }
    {
        Reader { bytes, at: 0 }
    }

    // The reader's position.
    pub fn at(self) -> usize
        ensures { result ≡ self.entry.at }
    {
        self.at
    }

    // Reads the frame at the reader's position and moves past it; a refusal and the end move nothing. Not the `next` of an `Iterator`: a loop over one
    // ends, and a reader that was refused gives that refusal each time (Rules 9.5).
    pub fn next(&mut self) -> Option<Result<(Frame, usize), FrameRefusal>>
        ensures { (result ≡ read_by self.old) × (self.new ≡ moved_past self.old) }
    {
        let reading = read_frame(self.bytes, self.at);
        self.at = position_after(reading, self.at);
        reading
    }
}

// The frame that a reader at this position of the bytes reads.
pub fn frame_at(bytes: &[u8], at: usize) -> Option<Result<(Frame, usize), FrameRefusal>>
    ensures { result ≡ read_of bytes.now at }
{
    Reader { bytes, at }.next()
}
