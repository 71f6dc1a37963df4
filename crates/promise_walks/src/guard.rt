//! Hubs that stay.
use kj_base::Link;

/// Which hubs aren't freed for want of references: the one that is this node or whose tree holds it, or all.
#[derive(Clone, Copy, Debug, PartialEq, Eq)]
pub enum Guard {
    Holding(Option<Link>),
    Every,
}
