// The state of a window is lent, and brought up to date there (Rules 11.2). `window_c` exports these calls for programs in C.
ghost use Rattle.std.specs.Prelude.{◌≡◌};
ghost use Rattle.window.specs.Begin.{begin_of};
ghost use Rattle.window.specs.Update.{update_of};

use crate::begin::begin;
use crate::figures::Figures;
use crate::update::updated;
use crate::window::Window;

// Begins the lent window at this length. A refusal leaves it.
#[unsafe(no_mangle)]
pub extern "C" fn window_begin(window: &mut Window, length: u32) -> u32
    ensures { (result ≡ (begin_of window.old length).number) × (window.new ≡ (begin_of window.old length).window) }
{
    match begin(*window, length) {
        Ok(begun) => {
            *window = begun;
            0
        }
        Err(refusal) => refusal.number(),
    }
}

// Brings the lent window up to date with a reading, and tells the figures of the readings present. A refusal leaves it.
#[unsafe(no_mangle)]
pub extern "C" fn window_update(window: &mut Window, reading: u32) -> Figures
    ensures { (result ≡ (update_of window.old reading).figures) × (window.new ≡ (update_of window.old reading).window) }
{
    match updated(window, reading) {
        Ok((next, summary)) => {
            *window = next;
            Figures::from(summary)
        }
        Err(refusal) => Figures::from(refusal),
    }
}
