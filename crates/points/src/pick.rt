// One of two values, chosen where a jump would be foreseen badly.
ghost use Rattle.std.specs.Prelude.{◌≡◌, cond};

// One of two values.
pub fn pick<T: Copy + Drop>(first: bool, x: T, y: T) -> T
    ensures { result ≡ cond first x y }
{
    if first { x } else { y }
}
