use crate::gate::{Gate, Point};
use std::sync::atomic::{AtomicBool, Ordering};

/// A gate with two points. It holds the thread that comes to one of them until a thread has come to the other, for so
/// many turns at most. A turn is one load of an atomic, so the gate always lets the thread go on.
#[derive(Debug, Drop)]
pub struct HoldGate {
    one: Point,
    other: Point,
    turns: u64,
    one_reached: AtomicBool,
    other_reached: AtomicBool,
    out_of_turns: AtomicBool,
}

impl HoldGate {
    /// A gate at which no thread has come to either point, and that holds a thread for `turns` turns at most.
    pub fn make(one: Point, other: Point, turns: u64) -> HoldGate {
        HoldGate {
            one,
            other,
            turns,
            one_reached: AtomicBool::new(false),
            other_reached: AtomicBool::new(false),
            out_of_turns: AtomicBool::new(false),
        }
    }

    /// Whether threads have come to both points.
    pub fn met(&self) -> bool {
        self.one_reached.load(Ordering::SeqCst) && self.other_reached.load(Ordering::SeqCst)
    }

    /// Whether a thread was held for all its turns, and went on though no thread had come to the other point.
    pub fn ran_out(&self) -> bool {
        self.out_of_turns.load(Ordering::SeqCst)
    }

    fn hold_until(&self, reached: &AtomicBool) {
        for _ in 0..self.turns {
            if reached.load(Ordering::SeqCst) {
                return;
            }
        }
        self.out_of_turns.store(true, Ordering::SeqCst);
    }
}

impl Gate for HoldGate {
    fn at(&self, point: Point) {
        let is_one = point == self.one;
        let is_other = point == self.other;
        if is_one {
            self.one_reached.store(true, Ordering::SeqCst);
        }
        if is_other {
            self.other_reached.store(true, Ordering::SeqCst);
        }
        if is_one {
            self.hold_until(&self.other_reached);
        }
        if is_other {
            self.hold_until(&self.one_reached);
        }
    }
}

#[cfg(test)]
mod tests {
    use super::*;
    use crate::gate::OpenGate;
    use std::test::Fail;

    fn ahead() -> Point {
        Point::Between {
            driver: 0,
            event: 2,
        }
    }

    fn behind() -> Point {
        Point::Under { driver: 1, peer: 3 }
    }

    #[test]
    fn holds_for_its_turns_and_no_longer(rt: HostRuntime) -> Result<(), Fail> {
        let gate = HoldGate::make(ahead(), behind(), 10);
        gate.at(Point::Answered { driver: 0, call: 2 });
        assert!(rt; !gate.met());
        assert!(rt; !gate.ran_out());
        gate.at(ahead());
        assert!(rt; !gate.met());
        assert!(rt; gate.ran_out());
        gate.at(behind());
        assert!(rt; gate.met());
        Ok(())
    }

    #[test]
    fn lets_go_at_once_where_the_other_point_was_come_to(rt: HostRuntime) -> Result<(), Fail> {
        let gate = HoldGate::make(ahead(), ahead(), 1);
        gate.at(ahead());
        assert!(rt; gate.met());
        assert!(rt; !gate.ran_out());
        OpenGate.at(ahead());
        Ok(())
    }
}
