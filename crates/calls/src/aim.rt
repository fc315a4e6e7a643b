// What a search looks for.
use points::point::Point;
use points::scale::Scale;

// The target of a nearest call, the number of the last change that it takes in, and the factors by which it goes.
#[derive(Clone, Copy)]
pub struct Aim {
    pub point: Point,
    pub asof: u32,
    pub scale: Scale,
}
