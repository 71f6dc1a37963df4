//! A fault of the outside.
use thiserror::Error;

/// A call to the outside failed. It comes only where the object's count of faults rose in that
/// call.
#[derive(Clone, Copy, Debug, PartialEq, Eq, Error)]
#[error("input or output failed")]
pub struct Failed;
