// A window is begun.
ghost use Rattle.std.specs.Prelude.{◌≡◌};
ghost use Rattle.window.specs.Begin.{begin_of, begun_told};

use crate::refusal::WindowRefusal;
use crate::window::{Window, length_fits};

// The window at this length, no reading present. Nothing is asked of the state that it was in, and a refusal leaves it.
// `window` is not read: the contract says by it what a refusal leaves (`begun_told`), as the README's `begin` takes it by value.
#[tactic(auto, unfolding(crate::specs::Begin::begin_of, crate::specs::Begin::begun_of, crate::specs::Window::window_of, crate::specs::Window::padded))]
pub fn begin(window: Window, length: u32) -> Result<Window, WindowRefusal>
    ensures { begun_told window result ≡ begin_of window length }
{
    if length_fits(length) {
        Ok(Window {
            length,
            present: 0,
            readings: [0; 64],
        })
    } else {
        Err(WindowRefusal::BadWindow)
    }
}
