use crate::bus::Bus;
use crate::driver::Driver;
use b1_pool::PoolKind;
use b1_queue::QueueKind;

fn needs_sync<T: Sync>(_shared: &T) {}

fn needs_send<T: Send>(_moved: &T) {}

/// Threads may share a bus, and a driver may move to a thread: a call of this compiles. Does nothing.
pub fn cross<Q: QueueKind + Send, P: PoolKind + Send>(bus: &Bus<Q, P>, driver: &Driver<Q, P>) {
    needs_sync(bus);
    needs_send(bus);
    needs_send(driver);
}
