//! Recordings, and the replies to them.
ghost use Rattle.std.specs.Prelude.{◌≡◌, [], ◌∷◌, ◌++◌, length, OnOk, OnErr};

use kj_base::{Bytes, NoMemory};
use std::alloc::Global;
use std::marker::Model;

/// What each connection sent.
pub type Records = ConnectionOctets;

/// What was written to each connection.
pub type Replies = ConnectionOctets;

/// The octets of each connection, in the order of the connections.
#[derive(Debug, Drop)]
pub struct ConnectionOctets {
    items: Vec<Bytes>,
}

impl Model for ConnectionOctets {
    ghost use Rattle.std.specs.Prelude.{List, ℕ};

    ghost Value = { List (List ℕ) };

    ghost view = { λ conns. conns.items.items };
}

impl ConnectionOctets {
    /// No connection. Takes no memory.
    pub fn new(alloc: Global) -> ConnectionOctets
        ensures { result ≡ [] }
    {
        ConnectionOctets {
            items: Vec::new(alloc),
        }
    }

    /// Takes no memory.
    pub fn from_vec(items: Vec<Bytes>) -> ConnectionOctets
        ensures { result ≡ items.items }
    {
        ConnectionOctets { items }
    }

    /// Takes no memory.
    pub fn into_vec(self) -> Vec<Bytes>
        ensures { result.items ≡ self }
    {
        self.items
    }

    /// The octets of each connection in order.
    pub fn as_slice(&self) -> &[Bytes]
        ensures { result.now ≡ self.now }
    {
        self.items.as_slice()
    }

    /// How many connections there are.
    pub fn len(&self) -> usize
        ensures { result ≡ length self.now }
    {
        self.items.len()
    }

    /// Adds a connection behind the others.
    pub fn push(&mut self, octets: Bytes) -> Result<(), NoMemory>
        ensures ok { OnOk result (self.new ≡ self.old ++ octets ∷ []) }
        ensures err { OnErr result (self.new ≡ self.old) }
    {
        self.items.push(octets)?;
        Ok(())
    }
}
