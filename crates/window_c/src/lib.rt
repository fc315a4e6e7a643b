// The window for programs in C: the two calls on a lent state, under the names that bench/scans.h declares. C lends the state by a pointer to it. Each
// stands here and in `window`, since a crate is a library or a static library.
#![tactic(auto)]

ghost use Rattle.std.specs.Prelude.{◌≡◌};
ghost use Rattle.window.specs.Begin.{begin_of};
ghost use Rattle.window.specs.Update.{update_of};

use window::figures::Figures;
use window::lent;
use window::window::Window;

// Begins the lent window at this length. A refusal leaves it.
#[unsafe(no_mangle)]
pub extern "C" fn window_begin(window: &mut Window, length: u32) -> u32
    ensures { (result ≡ (begin_of window.old length).number) × (window.new ≡ (begin_of window.old length).window) }
{
    lent::window_begin(window, length)
}

// Brings the lent window up to date with a reading, and tells the figures of the readings present. A refusal leaves it.
#[unsafe(no_mangle)]
pub extern "C" fn window_update(window: &mut Window, reading: u32) -> Figures
    ensures { (result ≡ (update_of window.old reading).figures) × (window.new ≡ (update_of window.old reading).window) }
{
    lent::window_update(window, reading)
}
