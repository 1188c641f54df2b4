ghost use Rattle.model.specs.declared.user.Who.TheVariants.{A, B};
ghost use Rattle.machine.specs.Machine.{Fits};

use machine::{Machine, Permit};

/// The machine of a sheet, and the permits of its users: each permit is its own user's, and of the kind that the
/// machine's record has.
#[derive(Drop)]
pub(crate) struct Desk<M> {
    pub machine: Machine<M>,
    pub a: Permit,
    pub b: Permit,
    ghost fits_a: { Fits A machine a },
    ghost fits_b: { Fits B machine b },
}
