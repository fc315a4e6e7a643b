// The state of a window, and whether readings could leave it.
ghost use Rattle.std.specs.Prelude.{◌≡◌, ◌≤◌};
ghost use Rattle.window.specs.Window.{length_in, sound_below, is_sound};

use crate::figures::greatest_of;

// The greatest length of a window.
pub const LONGEST: u32 = 64;

// The greatest reading: 100 %, in units of 0.01 %.
pub const WETTEST: u32 = 10000;

// Its length, how many readings are present, and these, the oldest first, with zeros behind. The layout is that of C (`bench/scans.h`), which lends it.
#[repr(C)]
#[derive(Clone, Copy, Debug, PartialEq, Eq)]
pub struct Window {
    pub length: u32,
    pub present: u32,
    pub readings: [u32; 64],
}

// Whether a window can have this length.
pub(crate) fn length_fits(length: u32) -> bool
    ensures { result ≡ length_in length }
{
    (1..=LONGEST).contains(&length)
}

// Each of the readings present is one that a scan can give, and behind them stands 0. A loop that ended at the first number that is neither would be slower
// for every state that readings leave.
fn positions_sound(readings: &[u32; 64], present: usize) -> bool
    requires { present ≤ 64 }
    ensures { result ≡ sound_below readings.now present 64 }
{
    let (here, behind) = readings.split_at(present);
    greatest_of(here) <= WETTEST && greatest_of(behind) == 0
}

// A state that readings could leave.
pub fn is_sound(window: Window) -> bool
    ensures { result ≡ is_sound window }
{
    left_by_readings(&window)
}

// The same of a state that is lent, which copies none of its words.
#[tactic(auto, unfolding(crate::specs::Window::is_sound))]
pub(crate) fn left_by_readings(window: &Window) -> bool
    ensures { result ≡ is_sound window.now }
{
    length_fits(window.length)
        && window.present <= window.length
        && positions_sound(&window.readings, window.present as usize)
}
