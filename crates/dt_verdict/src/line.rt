//! The lines of a certificate, word by word.
ghost use Rattle.std.specs.Prelude.{◌≡◌, Ok};
ghost use Rattle.dt_spelling.specs.Reading.{words_from};
ghost use Rattle.dt_verdict.specs.Reading.{Spells, base_at, entry_at, number_at, value_at, weights_at, whole_of};

use crate::words::{WrongWord, kind, natural, signed, small, word};
use dt_map::Entry;
use dt_normal::Low;
use dt_tree::Weights;

/// What was read, where no word stands at a byte or behind it.
#[tactic(auto, using(crate::proofs::Ends::ends))]
fn end<T: Drop>(line: &[u8], at: usize, read: T) -> Result<T, WrongWord>
    ensures { Spells line.now (λ x. x) result (whole_of (Ok (read, words_from line.now at))) }
{
    if at <= line.len() {
        return Err(WrongWord { at });
    }
    Ok(read)
}

/// The line of an entry.
#[tactic(auto, unfolding(dt_spelling::specs::Reading::bind, crate::specs::Reading::entry_at))]
pub(crate) fn entry(line: &[u8]) -> Result<Entry, WrongWord>
    ensures { Spells line.now (λ x. x) result (whole_of (entry_at (words_from line.now 0))) }
{
    let at = word(line, 0, b"entry")?;
    let (kind, at) = kind(line, at)?;
    let (disp, at) = signed(line, at)?;
    end(line, at, Entry { kind, disp })
}

/// The line of a base.
#[tactic(auto, unfolding(dt_spelling::specs::Reading::bind, crate::specs::Reading::base_at))]
pub(crate) fn base(line: &[u8]) -> Result<i64, WrongWord>
    ensures { Spells line.now (λ x. x) result (whole_of (base_at (words_from line.now 0))) }
{
    let at = word(line, 0, b"base")?;
    let (base, at) = signed(line, at)?;
    end(line, at, base)
}

/// A line of a name and a number of at most `most`.
#[tactic(auto, unfolding(dt_spelling::specs::Reading::bind, crate::specs::Reading::number_at))]
pub(crate) fn number(line: &[u8], name: &[u8], most: u64) -> Result<u64, WrongWord>
    ensures { Spells line.now (λ x. x) result (whole_of (number_at name.now most (words_from line.now 0))) }
{
    let at = word(line, 0, name)?;
    let (number, at) = natural(line, at, most)?;
    end(line, at, number)
}

/// The line of a value, behind its name: from where to where, and the value.
#[tactic(auto, unfolding(dt_spelling::specs::Reading::bind, crate::specs::Reading::value_at))]
pub(crate) fn value(line: &[u8], name: &[u8]) -> Result<Low, WrongWord>
    ensures { Spells line.now (λ x. x) result (whole_of (value_at name.now (words_from line.now 0))) }
{
    let at = word(line, 0, name)?;
    let (from, at) = small(line, at, 1024)?;
    let (to, at) = small(line, at, 1024)?;
    let (low, at) = natural(line, at, u64::MAX)?;
    end(line, at, Low { from, to, low })
}

/// The line of six weights.
#[tactic(auto, unfolding(dt_spelling::specs::Reading::bind, crate::specs::Reading::weights_at), using(crate::proofs::Ends::ends))]
pub(crate) fn weights(line: &[u8]) -> Result<Weights, WrongWord>
    ensures { Spells line.now (λ x. x) result (whole_of (weights_at (words_from line.now 0))) }
{
    let at = word(line, 0, b"weights")?;
    let (leaf, at) = small(line, at, Weights::MOST)?;
    let (vector, at) = small(line, at, Weights::MOST)?;
    let (index, at) = small(line, at, Weights::MOST)?;
    let (place, at) = small(line, at, Weights::MOST)?;
    let (group, at) = small(line, at, Weights::MOST)?;
    let (part, at) = small(line, at, Weights::MOST)?;
    match Weights::new(leaf, vector, index, place, group, part) {
        Some(w) => end(line, at, w),
        None => Err(WrongWord { at }),
    }
}
