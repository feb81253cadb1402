//! Who is asked before each call of a worker, and told after it.

/// Is asked before each call of a worker, and told after it. The worker's number is that of its
/// pass; its calls are counted from 1.
///
/// Workers call it at once, each in its own thread, so a gate can hold one until another has come.
pub trait Gate {
    /// The worker is about to make this call. It makes it when this returns.
    fn enter(&self, worker: u32, call: u32);

    /// The worker has the answer of this call.
    fn answered(&self, worker: u32, call: u32);
}

/// The gate that holds nobody.
#[derive(Clone, Copy)]
pub struct Open;

impl Gate for Open {
    fn enter(&self, _worker: u32, _call: u32) {}

    fn answered(&self, _worker: u32, _call: u32) {}
}
