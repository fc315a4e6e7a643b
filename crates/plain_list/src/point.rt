// Points as the plain list keeps them.
use points::point::Point;
use points::word::{point_at, word};

// A point whose coordinates are counted from the least of their axis, so that none is negative. Points are ordered axis by axis.
#[derive(Clone, Copy, PartialEq, Eq, PartialOrd, Ord)]
pub struct PlainPoint {
    pub grade: u32,
    pub weight: u32,
    pub moisture: u32,
    pub speed: u32,
    pub draw: u32,
}

impl PlainPoint {
    // The point of a grade and a weight, at moisture, speed and draw 0.
    pub fn at_weight(grade: u32, weight: u32) -> PlainPoint {
        PlainPoint {
            grade: grade.saturating_sub(1),
            weight: weight.saturating_sub(1),
            moisture: 0,
            speed: 0,
            draw: 2000,
        }
    }
}

// The point for a call. A number past an axis's range gives a coordinate out of range.
impl From<PlainPoint> for Point {
    fn from(p: PlainPoint) -> Point {
        point_at(p.grade, p.weight, p.moisture, p.speed, p.draw)
    }
}

// The point of an answer.
impl From<Point> for PlainPoint {
    fn from(p: Point) -> PlainPoint {
        PlainPoint {
            grade: word(p, 1),
            weight: word(p, 2),
            moisture: word(p, 3),
            speed: word(p, 4),
            draw: word(p, 5),
        }
    }
}
