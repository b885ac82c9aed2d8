/// Where a driver calls its gate.
#[derive(Clone, Copy, Debug, PartialEq, Eq)]
pub enum Point {
    /// After an event, with no lock held. `event` counts the driver's events from 0, and stays at 4,294,967,295 once it
    /// is there.
    Between { driver: u32, event: u32 },
    /// Within an event, under the lock of `peer`.
    Under { driver: u32, peer: u32 },
    /// After the answer of a call, whose place in the driver's list is `call`, from 0. An attempt that waits has none.
    Answered { driver: u32, call: u64 },
}

/// What the drivers of a bus call at each point that they come to. It answers nothing, and may hold the thread.
pub trait Gate {
    /// A driver has come to a point.
    fn at(&self, point: Point);
}

/// A gate that holds no thread.
#[derive(Clone, Copy, Debug)]
pub struct OpenGate;

impl Gate for OpenGate {
    fn at(&self, _point: Point) {}
}
