//! What a map word sets.

ghost use Rattle.std.specs.Prelude.{◌≡◌, ◌<◌, ◌&&◌, ◌==◌, false};
ghost use Rattle.std.specs.Option.{ForSome};

use model::{Page, Switches};

/// An entry of a map: its logical block, and the page that it leads to or none.
#[derive(Clone, Copy)]
pub(crate) struct Entry {
    pub(crate) logical: usize,
    pub(crate) page: Option<Page>,
    ghost small: { logical < 32 },
    ghost real: { ForSome page (λ p. (p.protected && p.block == 127) ≡ false) },
}

/// What a map word sets of a user.
#[derive(Clone, Copy)]
pub(crate) enum Setting {
    Entry(Entry),
    Switches(Switches),
}
