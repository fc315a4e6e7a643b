// The refusals of a window: the question that a call fails.
ghost use Rattle.std.specs.Prelude.{◌≡◌};
ghost use Rattle.window.specs.Refusal.{number_of};

use std::error::Error;
use std::fmt;

#[derive(Clone, Copy, Debug, PartialEq, Eq)]
pub enum WindowRefusal {
    // The length is out of range, or the state is one that no readings could leave.
    BadWindow = 18,
    // The reading is out of range.
    BadReading = 19,
}

impl WindowRefusal {
    // The number of the question.
    pub fn number(self) -> u32
        ensures { result ≡ number_of self }
    {
        self as u32
    }
}

impl fmt::Display for WindowRefusal {
    fn fmt<W: fmt::Write>(&self, f: &mut fmt::Formatter<W>) -> fmt::Result {
        f.write_str(match self {
            WindowRefusal::BadWindow =>
                "the length is out of range, or no readings leave such a window",
            WindowRefusal::BadReading => "the reading is out of range",
        })
    }
}

impl Error for WindowRefusal {}
