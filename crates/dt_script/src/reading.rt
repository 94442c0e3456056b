//! Readers of the words at the front of a line. Each answers what it read and the bytes behind it.
ghost use Rattle.std.specs.Prelude.{◌≡◌, ℕ, List};
ghost use Rattle.std.specs.Borrow.{Bor};
ghost use Rattle.dt_script.specs.Words.{words_of};
ghost use Rattle.dt_script.specs.Hex.{hex_of};
ghost use Rattle.dt_script.specs.Reading.{Gives, word_at, end_at, keyword_at, item_at, items_at, one_or_more_at};

use crate::bytes::Bytes;
use crate::item::Item;
use crate::line::LineFault;
use crate::words::next_word;
use sqlite_items::Items;
use std::alloc::Global;

/// The next word.
pub(crate) fn word(line: &[u8]) -> Result<(&[u8], &[u8]), LineFault>
    ensures { Gives (λ x. (x.0.now, words_of x.1.now)) result (word_at (words_of line.now)) }
{
    match next_word(line) {
        Some(found) => Ok(found),
        None => Err(LineFault::Syntax),
    }
}

/// Nothing but blanks.
pub(crate) fn end(line: &[u8]) -> Result<(), LineFault>
    ensures { Gives (λ x. x) result (end_at (words_of line.now)) }
{
    match next_word(line) {
        Some(_) => Err(LineFault::Syntax),
        None => Ok(()),
    }
}

/// This very word.
#[tactic(auto, unfolding(crate::specs::Reading::keyword_at))]
pub(crate) fn keyword<'a>(keyword: &[u8], line: &'a [u8]) -> Result<&'a [u8], LineFault>
    ensures { Gives (λ (x : Bor (List ℕ)). words_of x.now) result (keyword_at keyword.now (words_of line.now)) }
{
    let (found, rest) = word(line)?;
    if found == keyword {
        Ok(rest)
    } else {
        Err(LineFault::Syntax)
    }
}

/// What the next word spells.
#[tactic(auto, unfolding(crate::specs::Reading::item_at))]
pub(crate) fn item<T: Item>(line: &[u8]) -> Result<(T, &[u8]), LineFault>
    ensures { Gives (λ x. (x.0, words_of x.1.now)) result (item_at T.item_of (words_of line.now)) }
{
    let (found, rest) = word(line)?;
    match T::of_word(found) {
        Some(item) => Ok((item, rest)),
        None => Err(LineFault::Syntax),
    }
}

/// Bytes in hexadecimal.
#[tactic(auto, unfolding(crate::specs::Reading::item_at))]
pub(crate) fn hex(alloc: Global, line: &[u8]) -> Result<(Bytes, &[u8]), LineFault>
    ensures { Gives (λ x. (x.0, words_of x.1.now)) result (item_at hex_of (words_of line.now)) }
{
    let (found, rest) = word(line)?;
    let bytes = Bytes::of_word(alloc, found)?;
    Ok((bytes, rest))
}

/// All the words that are left.
pub(crate) fn items<T: Item + Drop>(alloc: Global, line: &[u8]) -> Result<Items<T>, LineFault>
    ensures { Gives (λ x. x) result (items_at T.item_of (words_of line.now)) }
{
    let mut items = Items::new(alloc);
    let mut rest = line;
    'words: while let Some((word, after)) = next_word(rest) {
        let Some(item) = T::of_word(word) else {
            return Err(LineFault::Syntax);
        };
        items.push(item)?;
        rest = after;
    }
    Ok(items)
}

/// All the words that are left, one at least.
pub(crate) fn one_or_more<T: Item + Drop>(alloc: Global, line: &[u8]) -> Result<Items<T>, LineFault>
    ensures { Gives (λ x. x) result (one_or_more_at T.item_of (words_of line.now)) }
{
    match next_word(line) {
        Some(_) => items(alloc, line),
        None => Err(LineFault::Syntax),
    }
}
