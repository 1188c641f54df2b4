//! The records of the two users.

ghost use Rattle.std.specs.Prelude.{◌≡◌};
ghost use Rattle.std.specs.Borrow.{sem};
ghost use Rattle.machine.specs.Users.{user_in, LendsUser};

use model::{User, Who};

/// The record of A and that of B.
#[derive(Drop)]
pub(crate) struct Users {
    pub(crate) a: User,
    pub(crate) b: User,
}

impl Users {
    pub(crate) fn of(&self, who: Who) -> &User
        ensures { result.now ≡ user_in who self.now }
    {
        match who {
            Who::A => &self.a,
            Who::B => &self.b,
        }
    }

    pub(crate) fn of_mut(&mut self, who: Who) -> &mut User
        ensures* writes_back { sem 𝓛 (LendsUser self.entry who result) }
        ensures value { result.now ≡ user_in who self.old }
    {
        match who {
            Who::A => &mut self.a,
            Who::B => &mut self.b,
        }
    }
}
