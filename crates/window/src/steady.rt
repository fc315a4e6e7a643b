// Whether the moisture of a window is steady.
ghost use Rattle.std.specs.Prelude.{◌≡◌, ◌≤◌};
ghost use Rattle.window.specs.Steady.{within_spread, is_steady};

use crate::sound::Sound;
use crate::window::Window;

// The greatest of the readings present is above the least by no more than the spread.
fn within_spread(sound: &Sound, spread: u32) -> bool
    requires { 1 ≤ sound.now.window.now.present }
    ensures { result ≡ within_spread sound.now.window.now spread }
{
    let summary = sound.summary();
    summary.greatest - summary.least <= spread
}

// The window is full, and its readings lie within the spread. A state that no readings leave is not steady.
pub fn is_steady(window: Window, spread: u32) -> bool
    ensures { result ≡ is_steady window spread }
{
    match Sound::new(&window) {
        Ok(sound) if window.present == window.length => within_spread(&sound, spread),
        _ => false,
    }
}
