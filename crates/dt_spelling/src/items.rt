//! Readers of one word of a text, from a byte on. Each answers what it read and the byte where the next word begins.
ghost use Rattle.std.specs.Prelude.{◌≡◌, ℕ, List, ◌==◌, ◌≤◌, length, [], ◌∷◌, MatchOption};
ghost use Rattle.std.specs.List.{position_or_len};
ghost use Rattle.dt_spelling.specs.Spelling.{space};
ghost use Rattle.dt_spelling.specs.Reading.{Gives, item_at, number_in, step_in, kind_in, head_in, words_from};

use crate::head::{Head, head_in};
use crate::number::{kind_in, number_in, step_in};
use crate::stop::Stop;
use dt_kinds::Kind;

/// How many bytes stand before the first space.
fn len_before_space(bytes: &[u8]) -> usize
    ensures exact { position_or_len (λ b. b == space) bytes.now ≡ result }
    ensures fits { result ≤ length bytes.now }
{
    for (i, b) in bytes.iter().enumerate() {
        if *b == b' ' {
            return i;
        }
    }
    bytes.len()
}

/// The word that begins at a byte, and where the next one begins: one past the end of the text behind the last one.
#[tactic(auto, unfolding(crate::specs::Reading::words_from))]
fn next_word(text: &[u8], at: usize) -> Option<(&[u8], usize)>
    ensures { MatchOption result (words_from text.now at ≡ []) (λ found. words_from text.now at ≡ found.0.now ∷ words_from text.now found.1) }
{
    let rest = text.get(at..)?;
    let len = len_before_space(rest);
    Some((&rest[..len], at + len + 1))
}

/// The first word of a node, where one can stand there.
pub(crate) fn head(text: &[u8], at: usize, levels: u32, spare: u32) -> Result<(Head, usize), Stop>
    ensures { Gives text.now (λ x. (x.0, words_from text.now x.1)) result (item_at (head_in levels spare) (words_from text.now at)) }
{
    let Some((word, next)) = next_word(text, at) else {
        return Err(Stop::At(at));
    };
    match head_in(levels, spare, word) {
        Some(head) => Ok((head, next)),
        None => Err(Stop::At(at)),
    }
}

/// A number from 1 to `most`.
pub(crate) fn number(text: &[u8], at: usize, most: u32) -> Result<(u32, usize), Stop>
    ensures { Gives text.now (λ x. (x.0, words_from text.now x.1)) result (item_at (number_in most) (words_from text.now at)) }
{
    let Some((word, next)) = next_word(text, at) else {
        return Err(Stop::At(at));
    };
    match number_in(most, word) {
        Some(number) => Ok((number, next)),
        None => Err(Stop::At(at)),
    }
}

/// A stride, a place or a displacement.
pub(crate) fn step(text: &[u8], at: usize) -> Result<(i64, usize), Stop>
    ensures { Gives text.now (λ x. (x.0, words_from text.now x.1)) result (item_at step_in (words_from text.now at)) }
{
    let Some((word, next)) = next_word(text, at) else {
        return Err(Stop::At(at));
    };
    match step_in(word) {
        Some(step) => Ok((step, next)),
        None => Err(Stop::At(at)),
    }
}

/// The name of a kind.
pub(crate) fn kind(text: &[u8], at: usize) -> Result<(Kind, usize), Stop>
    ensures { Gives text.now (λ x. (x.0, words_from text.now x.1)) result (item_at kind_in (words_from text.now at)) }
{
    let Some((word, next)) = next_word(text, at) else {
        return Err(Stop::At(at));
    };
    match kind_in(word) {
        Some(kind) => Ok((kind, next)),
        None => Err(Stop::At(at)),
    }
}
