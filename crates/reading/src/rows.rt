ghost use Rattle.std.specs.Prelude.{◌≡◌};
ghost use Rattle.std.specs.Iterator.{YieldsFirst, item_count};
ghost use Rattle.reading.specs.Rows.{rows};

use crate::row::Row;
use crate::text::read_row;
use model::Denial;

/// The rows of a text, in order. A wrong row is denied, and is the last.
#[derive(Clone, Copy, Debug)]
pub struct Rows<'a> {
    /// What is left to read.
    pub text: &'a [u8],
}

impl Iterator for Rows<'_> {
    type Item = Result<Row, Denial>;

    ghost next_gives = { YieldsFirst (λ s. rows s.text.now) };

    ghost remaining = { item_count (λ s. rows s.text.now) };

    #[tactic(auto, using(crate::proofs::RowLemmas::rows_none, crate::proofs::RowLemmas::rows_wrong, crate::proofs::RowLemmas::rows_more))]
    fn next(&mut self) -> Option<Result<Row, Denial>> {
        if self.text.is_empty() {
            return None;
        }
        let Some((row, rest)) = read_row(self.text) else {
            self.text = &[];
            return Some(Err(Denial::Sheet));
        };
        self.text = rest;
        Some(Ok(row))
    }
}
