//! Readers of one word of a line, from a byte on. Each answers what it read and the byte where the next word begins.
ghost use Rattle.std.specs.Prelude.{◌≡◌, ◌∷◌, [], Ok, Err};
ghost use Rattle.dt_spelling.specs.Reading.{item_at, kind_in, words_from};
ghost use Rattle.dt_verdict.specs.Number.{natural_in, signed_in};
ghost use Rattle.dt_verdict.specs.Reading.{Spells, is_word};

use crate::cut::next_word;
use crate::number::{natural_in, signed_in};
use dt_kinds::Kind;

/// A word that isn't as it should be, or is missing: where it begins.
#[derive(Clone, Copy)]
pub(crate) struct WrongWord {
    pub at: usize,
}

/// The kind whose printed name a word is.
#[tactic(auto, unfolding(dt_spelling::specs::Reading::kind_in))]
fn kind_in(word: &[u8]) -> Option<Kind>
    ensures { result ≡ kind_in word.now }
{
    let kind = Kind::of_name(word).ok()?;
    if word == kind.name().as_bytes() {
        Some(kind)
    } else {
        None
    }
}

/// One word, as it should be: where the next one begins.
pub(crate) fn word(line: &[u8], at: usize, wanted: &[u8]) -> Result<usize, WrongWord>
    ensures { Spells line.now (λ x. (tt, words_from line.now x)) result (item_at (is_word wanted.now) (words_from line.now at)) }
{
    let Some((word, next)) = next_word(line, at) else {
        return Err(WrongWord { at });
    };
    if word != wanted {
        return Err(WrongWord { at });
    }
    Ok(next)
}

/// A number of at most `most`.
pub(crate) fn natural(line: &[u8], at: usize, most: u64) -> Result<(u64, usize), WrongWord>
    ensures { Spells line.now (λ x. (x.0, words_from line.now x.1)) result (item_at (natural_in most) (words_from line.now at)) }
{
    let Some((word, next)) = next_word(line, at) else {
        return Err(WrongWord { at });
    };
    match natural_in(most, word) {
        Some(number) => Ok((number, next)),
        None => Err(WrongWord { at }),
    }
}

/// The same of 32 bits.
pub(crate) fn small(line: &[u8], at: usize, most: u32) -> Result<(u32, usize), WrongWord>
    ensures { Spells line.now (λ x. (x.0, words_from line.now x.1)) result (item_at (natural_in most) (words_from line.now at)) }
{
    let (number, next) = natural(line, at, u64::from(most))?;
    Ok((number as u32, next))
}

/// A number of 64 bits with its sign.
pub(crate) fn signed(line: &[u8], at: usize) -> Result<(i64, usize), WrongWord>
    ensures { Spells line.now (λ x. (x.0, words_from line.now x.1)) result (item_at signed_in (words_from line.now at)) }
{
    let Some((word, next)) = next_word(line, at) else {
        return Err(WrongWord { at });
    };
    match signed_in(word) {
        Some(number) => Ok((number, next)),
        None => Err(WrongWord { at }),
    }
}

/// The name of a kind.
pub(crate) fn kind(line: &[u8], at: usize) -> Result<(Kind, usize), WrongWord>
    ensures { Spells line.now (λ x. (x.0, words_from line.now x.1)) result (item_at kind_in (words_from line.now at)) }
{
    let Some((word, next)) = next_word(line, at) else {
        return Err(WrongWord { at });
    };
    match kind_in(word) {
        Some(kind) => Ok((kind, next)),
        None => Err(WrongWord { at }),
    }
}
