// The list of the records held: each is looked for by a linear scan.
use crate::point::PlainPoint;
use crate::square::square;
use crate::table::{Code, Due, Record, Table};
use std::cmp::Reverse;

impl Table {
    // The record of a point, where it is held.
    pub fn held(&self, point: PlainPoint) -> Option<Record> {
        self.records
            .iter()
            .copied()
            .find(|record| record.point == point)
    }

    // A record is added at the end. There is room for as many as the largest index has places.
    pub fn hold(&mut self, record: Record) {
        if self.records.len() < self.records.capacity() {
            self.records.push_reserved(record);
        }
    }

    // A record is taken out, and the last one comes where it was.
    pub fn drop_record(&mut self, point: PlainPoint) {
        if let Some(i) = self.records.iter().position(|record| record.point == point) {
            self.records.swap_remove(i);
        }
    }

    // The answer of a nearest for the records held now: of those of the target's grade the one with the least square, and of equal ones the heavier,
    // or of one weight the lower, axis by axis.
    pub fn nearest(&self, target: PlainPoint) -> Due {
        let scale = self.scale;
        let near = self
            .records
            .iter()
            .filter(|record| record.point.grade == target.grade)
            .map(|record| (
                square(scale, target, record.point),
                Reverse(record.point.weight),
                record.point,
                record.curve,
            ))
            .min();
        match near {
            Some((square, _, point, curve)) => Due {
                code: Code::Nearest,
                point,
                curve,
                square,
            },
            None => Due {
                code: Code::NoneFound,
                point: target,
                curve: 0,
                square: 0,
            },
        }
    }
}
