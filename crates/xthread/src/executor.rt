//! The executor.
use crate::boxed::Boxed;
use count_lock::{CountLock, Pass};
use kj_base::Sent;

/// The most requests that an executor may take in all.
pub const MAX_REQUESTS: u32 = 1_048_576;

/// One board behind one lock.
#[derive(Drop)]
pub struct Executor<P: Sent, R: Send> {
    pub(crate) lock: CountLock<Boxed<P, R>>,
}

/// A caller's pass of an executor.
pub type ExecutorPass<P, R> = Pass<Boxed<P, R>>;
