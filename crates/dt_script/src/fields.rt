//! Words one after another, read as one value.
ghost use Rattle.std.specs.Prelude.{◌≡◌, ℕ, List, Option};
ghost use Rattle.dt_script.specs.Words.{words_of};
ghost use Rattle.dt_script.specs.Reading.{Gives, end_at, pair_at, items_at};

use crate::item::Item;
use crate::line::LineFault;
use crate::reading::{end, item, items};
use sqlite_items::Items;
use std::alloc::Global;

/// What all the words that are left can spell: `()` no words, a pair one word and those behind it, and `Items` any number
/// of words alike.
pub(crate) trait Fields: Sized {
    ghost fields_at: { List (List ℕ) → Option Self };

    fn read(alloc: Global, line: &[u8]) -> Result<Self, LineFault>
        ensures { Gives (λ x. x) result (fields_at (words_of line.now)) };
}

impl Fields for () {
    ghost fields_at = { end_at };

    fn read(_alloc: Global, line: &[u8]) -> Result<(), LineFault> {
        end(line)
    }
}

impl<A: Item + Drop, B: Fields> Fields for (A, B) {
    ghost fields_at = { pair_at A.item_of B.fields_at };

    fn read(alloc: Global, line: &[u8]) -> Result<(A, B), LineFault> {
        let (first, line) = item(line)?;
        let others = Fields::read(alloc, line)?;
        Ok((first, others))
    }
}

impl<T: Item + Drop> Fields for Items<T> {
    ghost fields_at = { items_at T.item_of };

    fn read(alloc: Global, line: &[u8]) -> Result<Items<T>, LineFault> {
        items(alloc, line)
    }
}
