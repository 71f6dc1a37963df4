//! Where the bodies of a script stand.
ghost use Rattle.std.specs.Prelude.{◌≡◌, [], ◌∷◌, ◌++◌, IfOk, OnOk, OnErr};

use kj_base::{NoMemory, StepId};
use std::alloc::Global;
use std::marker::Model;

/// A body: its step, and the place in the text, in octets, of the line behind its first.
#[derive(Clone, Copy)]
pub struct Spot {
    pub step: StepId,
    pub place: u32,
}

/// The bodies of a script, in order.
#[derive(Drop)]
pub struct Spots {
    items: Vec<Spot>,
}

impl Model for Spots {
    ghost use Rattle.std.specs.Prelude.{List};
    ghost use Rattle.promise_script.specs.declared.spots.Spot.{Spot};

    ghost Value = { List Spot };

    ghost view = { λ s. s.items.items };
}

impl Spots {
    /// None, with room for so many.
    pub fn with_capacity(alloc: Global, room: usize) -> Result<Spots, NoMemory>
        ensures { IfOk result (λ spots. spots ≡ []) }
    {
        let items = Vec::with_capacity(alloc, room)?;
        Ok(Spots { items })
    }

    pub fn as_slice(&self) -> &[Spot]
        ensures { result.now ≡ self.now }
    {
        self.items.as_slice()
    }

    pub fn push(&mut self, spot: Spot) -> Result<(), NoMemory>
        ensures ok { OnOk result (self.new ≡ self.old ++ spot ∷ []) }
        ensures err { OnErr result (self.new ≡ self.old) }
    {
        self.items.push(spot)?;
        Ok(())
    }
}
