// What is told of the readings present: sum, least, greatest and mean.
ghost use Rattle.std.specs.Prelude.{◌≡◌, ◌*◌, ◌≤◌};
ghost use Rattle.window.specs.Figures.{greatest_of, mean_of, figures_told, refused_with};
ghost use Rattle.window.specs.Refusal.{number_of};
ghost use Rattle.window.specs.Window.{longest, wettest};

use crate::refusal::WindowRefusal;

// The four figures in 0.01 %.
#[derive(Clone, Copy, Debug, PartialEq, Eq)]
pub struct Summary {
    pub sum: u32,
    pub least: u32,
    pub greatest: u32,
    pub mean: u32,
}

// The same for programs in C: a number, 0 or that of a refusal, and the four figures, which are 0 with a refusal.
#[repr(C)]
#[derive(Clone, Copy, Debug, PartialEq, Eq)]
pub struct Figures {
    pub number: u32,
    pub sum: u32,
    pub least: u32,
    pub greatest: u32,
    pub mean: u32,
}

impl From<Summary> for Figures {
    ghost from_gives = { λ summary figures. figures ≡ figures_told summary };

    fn from(summary: Summary) -> Figures {
        let Summary {
            sum,
            least,
            greatest,
            mean,
        } = summary;
        Figures {
            number: 0,
            sum,
            least,
            greatest,
            mean,
        }
    }
}

impl From<WindowRefusal> for Figures {
    ghost from_gives = { λ refusal figures. figures ≡ refused_with (number_of refusal) };

    fn from(refusal: WindowRefusal) -> Figures {
        Figures {
            number: refusal.number(),
            sum: 0,
            least: 0,
            greatest: 0,
            mean: 0,
        }
    }
}

// The greatest of some readings; 0 where there is none.
pub(crate) fn greatest_of(readings: &[u32]) -> u32
    ensures { result ≡ greatest_of readings.now }
{
    readings.iter().copied().max().unwrap_or(0)
}

// The mean of n readings, rounded half up.
#[tactic(auto, unfolding(crate::specs::Figures::mean_of))]
pub(crate) fn mean_of(sum: u32, n: u32) -> u32
    requires { (1 ≤ n) × (n ≤ longest) × (sum ≤ wettest * longest) }
    ensures { result ≡ mean_of sum n }
{
    (2 * sum + n) / (2 * n)
}
