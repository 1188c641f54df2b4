ghost use Rattle.std.specs.Prelude.{◌≡◌};
ghost use Rattle.reading.specs.Read.{who, meant};

use model::Who;

/// What a row of a sheet asks for.
#[derive(Clone, Copy, PartialEq, Eq, Debug)]
pub enum Row {
    Map(u16),
    Put { at: u16, word: u16 },
    Start { user: Who, at: u16 },
    Run { user: Who, budget: u16 },
}

/// The four numbers of a row, in their order: what its text has, before they are known to ask for something.
#[derive(Clone, Copy)]
pub(crate) struct Fields {
    pub(crate) act: u16,
    pub(crate) user: u16,
    pub(crate) at: u16,
    pub(crate) word: u16,
}

// A wrong row carries no reason, so `Option` serves here and in `who_of`; the error of a `TryFrom` would be dropped at once.
impl Fields {
    /// What the four numbers ask for. `do` 0 maps `word`, 1 puts `word` at `at`, 2 starts `user` at `at`, 3 runs `user`
    /// with budget `word`. A field that `do` does not name must be 0, and a `do` over 3 is wrong.
    pub(crate) fn meaning(self) -> Option<Row>
        ensures { result ≡ meant self }
    {
        match (self.act, self.user, self.at, self.word) {
            (0, 0, 0, word) => Some(Row::Map(word)),
            (1, 0, at, word) => Some(Row::Put { at, word }),
            (2, user, at, 0) => Some(Row::Start {
                user: who_of(user)?,
                at,
            }),
            (3, user, 0, budget) => Some(Row::Run {
                user: who_of(user)?,
                budget,
            }),
            _ => None,
        }
    }
}

/// User 0 is A and 1 is B. A user over 1 is wrong.
fn who_of(user: u16) -> Option<Who>
    ensures { result ≡ who user }
{
    match user {
        0 => Some(Who::A),
        1 => Some(Who::B),
        _ => None,
    }
}
