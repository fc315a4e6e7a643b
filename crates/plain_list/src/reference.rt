// The plain table: a list of the records held, a linear scan, and a call at each station. It has no tree and no steps, and never looks at the
// words of the index.
use crate::opening::ask;
use crate::point::PlainPoint;
use crate::table::{Call, Code, Due, Record, State, Table};

// An answer with no record and no square.
fn plain(code: Code, point: PlainPoint, curve: u32) -> Due {
    Due {
        code,
        point,
        curve,
        square: 0,
    }
}

impl Table {
    // Whether every coordinate is in range under the rule.
    fn is_point(&self, p: PlainPoint) -> bool {
        p.grade < 9999
            && p.weight < 100000
            && p.moisture <= self.scale.most_moisture()
            && p.speed <= 30000
            && p.draw <= 4000
    }

    // The call of a kind: the number of the first of questions 7 to 9 that fails.
    fn call_of(&self, kind: u32, point: PlainPoint, curve: u32) -> Result<Call, u32> {
        ask(1 <= kind && kind <= 4, 7)?;
        ask(self.is_point(point), 8)?;
        ask(kind != 1 || (1 <= curve && curve <= 999999), 9)?;
        Ok(match kind {
            1 => Call::Add(Record { point, curve }),
            2 => Call::Remove(point),
            3 => Call::Contains(point),
            _ => Call::Nearest(point),
        })
    }

    // Whether a station has made as many changes as the limit lets each station make.
    fn is_spent(&self, s: u32) -> bool {
        self.stations
            .get(s as usize)
            .is_some_and(|station| station.changes == self.limit)
    }

    // The answer of a station's add at this moment.
    fn add_due(&self, s: u32, record: Record) -> Due {
        let point = record.point;
        if let Some(old) = self.held(point) {
            plain(Code::Held, point, old.curve)
        } else if self.is_spent(s) {
            plain(Code::Spent, point, 0)
        } else if self.is_full() {
            plain(Code::Full, point, 0)
        } else {
            plain(Code::Added, point, record.curve)
        }
    }

    // The answer of a station's remove at this moment.
    fn remove_due(&self, s: u32, point: PlainPoint) -> Due {
        match self.held(point) {
            None => plain(Code::Absent, point, 0),
            Some(_) if self.is_spent(s) => plain(Code::Spent, point, 0),
            Some(record) => plain(Code::Removed, point, record.curve),
        }
    }

    // The answer of a contains at this moment.
    fn contains_due(&self, point: PlainPoint) -> Due {
        match self.held(point) {
            Some(record) => plain(Code::Contained, point, record.curve),
            None => plain(Code::Absent, point, 0),
        }
    }

    // The answer that a station's unfinished call gets if it is answered now; a nearest has it from its submission.
    pub fn due_now(&self, s: u32) -> Option<Due> {
        match self.state(s) {
            State::Unfinished(Call::Add(record)) => Some(self.add_due(s, record)),
            State::Unfinished(Call::Remove(point)) => Some(self.remove_due(s, point)),
            State::Unfinished(Call::Contains(point)) => Some(self.contains_due(point)),
            State::Unfinished(Call::Nearest(_)) => self.due(s),
            _ => None,
        }
    }

    // A station does something else.
    fn put_state(&mut self, s: u32, state: State) {
        if let Some(station) = self.stations.get_mut(s as usize) {
            station.state = state;
        }
    }

    // An answer is set down at a station.
    fn put_due(&mut self, s: u32, due: Due) {
        if let Some(station) = self.stations.get_mut(s as usize) {
            station.due = Some(due);
        }
    }

    // A station has made a change.
    fn count_change(&mut self, s: u32) {
        if let Some(station) = self.stations.get_mut(s as usize) {
            station.changes = station.changes.saturating_add(1);
        }
    }

    // A change takes effect, and its station counts it. Any other answer changes nothing.
    fn apply(&mut self, s: u32, due: Due) {
        match due.code {
            Code::Added => {
                self.hold(Record {
                    point: due.point,
                    curve: due.curve,
                });
                self.count_change(s);
            }
            Code::Removed => {
                self.drop_record(due.point);
                self.set_down();
                self.count_change(s);
            }
            _ => {}
        }
    }

    // An answer waits at a station, for whose call no removal is kept any more.
    fn wait(&mut self, s: u32, due: Due) {
        self.put_due(s, due);
        self.put_state(s, State::Waiting);
        self.release(s);
    }

    // A submission, with the answer of a nearest for the records held now: the number of the first of questions 5 to 9 that fails.
    pub fn submit(&mut self, s: u32, kind: u32, point: PlainPoint, curve: u32) -> Result<(), u32> {
        ask(s < 8, 5)?;
        ask(self.is_idle(s), 6)?;
        let call = self.call_of(kind, point, curve)?;
        self.put_state(s, State::Unfinished(call));
        if let Call::Nearest(target) = call {
            let due = self.nearest(target);
            self.put_due(s, due);
        }
        Ok(())
    }

    // A step, which answers or not: the number of the first of questions 5 and 10 that fails.
    pub fn step(&mut self, s: u32, answers: bool) -> Result<(), u32> {
        ask(s < 8, 5)?;
        ask(self.is_unfinished(s), 10)?;
        if answers && let Some(due) = self.due_now(s) {
            self.wait(s, due);
            self.apply(s, due);
        }
        Ok(())
    }

    // A withdrawal, after which 11 waits: the number of the first of questions 5 and 10 that fails.
    pub fn withdraw(&mut self, s: u32) -> Result<(), u32> {
        ask(s < 8, 5)?;
        let State::Unfinished(call) = self.state(s) else {
            return Err(10);
        };
        self.wait(s, plain(Code::Withdrawn, call.point(), 0));
        Ok(())
    }

    // A taking of the answer that waits, which is not told: the number of the first of questions 5 and 12 that fails.
    pub fn take_untold(&mut self, s: u32) -> Result<(), u32> {
        ask(s < 8, 5)?;
        ask(matches!(self.state(s), State::Waiting), 12)?;
        self.put_state(s, State::Idle);
        Ok(())
    }

    // A taking gives the answer that waits: the number of the first of questions 5 and 12 that fails. Where none was set down, none waits.
    pub fn take(&mut self, s: u32) -> Result<Due, u32> {
        ask(s < 8, 5)?;
        let due = self.due(s).ok_or(12_u32)?;
        self.take_untold(s)?;
        Ok(due)
    }
}

#[cfg(test)]
mod tests {
    use super::*;
    use crate::scale::PlainScale;
    use std::alloc::AllocError;

    const POINT: PlainPoint = PlainPoint {
        grade: 1,
        weight: 12,
        moisture: 8000,
        speed: 41,
        draw: 41,
    };

    // A taking gives the answer once, and the station is idle then; a call that is unfinished has none, and so has a station that there is not.
    #[test]
    fn an_answer_is_taken_once(rt: HostRuntime) -> Result<(), AllocError> {
        let mut table = Table::new(rt.alloc())?;
        assert!(rt; table.open(131680, 4, 100, PlainScale::ones()).is_ok());
        assert!(rt; table.submit(3, 1, POINT, 7).is_ok());
        assert!(rt; matches!(table.take(3), Err(12)));
        assert!(rt; table.step(3, true).is_ok());
        assert!(rt;
            matches!(
                table.take(3),
                Ok(Due {
                    code: Code::Added,
                    curve: 7,
                    ..
                })
            )
        );
        assert!(rt; table.is_idle(3));
        assert!(rt; matches!(table.take(3), Err(12)));
        assert!(rt; matches!(table.take(8), Err(5)));
        Ok(())
    }
}
