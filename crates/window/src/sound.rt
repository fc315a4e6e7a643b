// A window that readings could leave: its readings, what is told of them, and the window with one more.
ghost use Rattle.std.specs.Prelude.{◌≡◌, true, false, ◌≤◌, ◌++◌, length, drop, replicate, MatchResult};
ghost use Rattle.window.specs.Figures.{summary_of};
ghost use Rattle.window.specs.Window.{wettest, is_sound, present_in};
ghost use Rattle.window.specs.Update.{next_of};

use crate::figures::{Summary, mean_of};
use crate::refusal::WindowRefusal;
use crate::window::{WETTEST, Window, left_by_readings};

// It is lent: a copy of its 66 words would take as long as a question does.
#[derive(Clone, Copy)]
pub(crate) struct Sound<'a> {
    pub window: &'a Window,
    ghost sound: { is_sound window.now ≡ true },
    ghost size: { length window.now.readings ≡ 64 },
}

// The readings from a position on, slid to the front, with zeros behind.
fn slid(readings: &[u32; 64], from: usize) -> [u32; 64]
    requires { (from ≤ 64) × (length readings.now ≡ 64) }
    ensures { result ≡ drop from readings.now ++ replicate from 0 }
{
    let mut out = [0; 64];
    out[..64 - from].copy_from_slice(&readings[from..]);
    out
}

impl<'a> Sound<'a> {
    // The window, where readings could leave it.
    pub(crate) fn new(window: &'a Window) -> Result<Sound<'a>, WindowRefusal>
        ensures { MatchResult result (λ sound. sound.window.now ≡ window.now) (λ refusal. (is_sound window.now ≡ false) × (refusal ≡ WindowRefusal.BadWindow)) }
    {
        if left_by_readings(window) {
            Ok(Sound { window })
        } else {
            Err(WindowRefusal::BadWindow)
        }
    }

    // The readings present.
    #[tactic(auto, using(crate::proofs::WindowLaws::present_fits), unfolding(crate::specs::Window::present_in))]
    fn readings(&self) -> &[u32]
        ensures { result.now ≡ present_in self.now.window.now }
    {
        &self.window.readings[..self.window.present as usize]
    }

    // What is told of the readings present, of which there is one at least.
    pub(crate) fn summary(&self) -> Summary
        requires { 1 ≤ self.now.window.now.present }
        ensures { result ≡ summary_of (present_in self.now.window.now) }
    {
        let readings = self.readings();
        let (mut sum, mut least, mut greatest) = (0, WETTEST, 0);
        for reading in readings {
            sum += *reading;
            least = least.min(*reading);
            greatest = greatest.max(*reading);
        }
        Summary {
            sum,
            least,
            greatest,
            mean: mean_of(sum, self.window.present),
        }
    }

    // The window with a reading more, one that readings could leave: where it was full, the oldest leaves.
    pub(crate) fn next(&self, reading: u32) -> Window
        requires { reading ≤ wettest }
        ensures { (result ≡ next_of self.now.window.now reading) × (is_sound result ≡ true) }
    {
        let Window {
            length,
            present,
            ..
        } = *self.window;
        let gone = (present + 1).saturating_sub(length);
        let staying = present - gone;
        let mut readings = slid(&self.window.readings, gone as usize);
        readings[staying as usize] = reading;
        Window {
            length,
            present: staying + 1,
            readings,
        }
    }
}
