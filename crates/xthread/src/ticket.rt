//! A submitter's claim on its request.
ghost use Rattle.std.specs.Prelude.{◌≡◌};
ghost use Rattle.xthread.specs.Answers.{request};

use count_lock::Owner;

/// Names one request of one executor, and belongs to the pass that submitted it. It must be spent: by a cancellation that
/// withdraws the request, or by a collection of its outcome.
pub struct Ticket {
    pub(crate) request: u32,
    pub(crate) owner: Owner,
}

impl Ticket {
    /// The number of the request, by which the target knows it.
    pub fn request(&self) -> u32
        ensures { result ≡ request self.now }
    {
        self.request
    }
}
