// A window is brought up to date with a reading.
ghost use Rattle.std.specs.Prelude.{◌≡◌};
ghost use Rattle.window.specs.Update.{update_of, updated_told};

use crate::figures::Summary;
use crate::refusal::WindowRefusal;
use crate::sound::Sound;
use crate::window::{WETTEST, Window};

// The window with a reading more, and what is told of the readings present with it. A refusal leaves the window.
pub fn update(window: Window, reading: u32) -> Result<(Window, Summary), WindowRefusal>
    ensures { updated_told window result ≡ update_of window reading }
{
    updated(&window, reading)
}

// The same of a window that is lent.
#[inline(always)]
pub(crate) fn updated(window: &Window, reading: u32) -> Result<(Window, Summary), WindowRefusal>
    ensures { updated_told window.now result ≡ update_of window.now reading }
{
    let sound = Sound::new(window)?;
    if WETTEST < reading {
        return Err(WindowRefusal::BadReading);
    }
    let next = sound.next(reading);
    let summary = Sound { window: &next }.summary();
    Ok((next, summary))
}
