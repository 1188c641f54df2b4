//! Permits are made by the machine alone, and each is spent by the call that it allows.

ghost use Rattle.std.specs.Prelude.{◌≡◌};

use model::{Denial, Who};

/// The right to start a user.
#[derive(Drop)]
pub struct Held {
    pub(crate) who: Who,
}

/// The right to run a user once.
#[derive(Drop)]
pub struct Ready {
    pub(crate) who: Who,
}

/// What a run gives back: Ready where its budget was spent, else Held.
#[derive(Drop)]
pub enum Permit {
    Held(Held),
    Ready(Ready),
}

/// A denied call on a permit: why, and the permit, which comes back.
#[derive(Drop)]
pub struct Denied<P> {
    pub reason: Denial,
    pub permit: P,
}

/// Where the permit is let go, the reason alone is handed up.
impl<P: Drop> From<Denied<P>> for Denial {
    ghost from_gives = { λ x y. y ≡ x.reason };

    fn from(value: Denied<P>) -> Denial {
        value.reason
    }
}
