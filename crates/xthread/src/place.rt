//! What is kept for one request.
ghost use Rattle.std.specs.Prelude.{◌≡◌};
ghost use Rattle.std.specs.Bool.{OnTrue, OnFalse};
ghost use Rattle.xthread.specs.declared.place.Place.TheVariants.{Waiting};

/// A payload until the request starts or is withdrawn, and a result from its end to its collection.
#[derive(Drop)]
pub enum Place<P, R> {
    Waiting(P),
    Away,
    Finished(R),
}

impl<P, R> Place<P, R> {
    pub(crate) fn is_waiting(&self) -> bool
        ensures waiting { OnTrue result ((p : P) × (self.now ≡ Waiting p)) }
        ensures other { OnFalse result ((p : P) → self.now ≡ Waiting p → ⊥) }
    {
        match self {
            Place::Waiting(_) => true,
            Place::Away => false,
            Place::Finished(_) => false,
        }
    }
}
