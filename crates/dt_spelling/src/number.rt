//! What one word spells.
ghost use Rattle.std.specs.Prelude.{◌≡◌, ◌≢◌, ℕ, ◌<◌, ◌&&◌, nat_le, ℤ, MatchOption, decimal, bytes_eq, IsUtf8};
ghost use Rattle.std.specs.Fmt.{signed_decimal};
ghost use Rattle.dt_tree.specs.Rule.{is_step};
ghost use Rattle.dt_spelling.specs.Reading.{number_in, step_in, kind_in};
ghost use Rattle.dt_spelling.specs.Parsed.{IsParsed, IsParsedSigned};

use dt_kinds::Kind;
use itoa::Buffer;

/// A word as text, where it is some.
fn as_text(word: &[u8]) -> Option<&str>
    ensures { MatchOption result (¬ IsUtf8 word.now) (λ text. text.now ≡ word.now) }
{
    std::str::from_utf8(word).ok()
}

/// The number that a word would have to spell.
fn parsed(word: &[u8]) -> Option<u32>
    ensures { IsParsed word.now result }
{
    let text = as_text(word)?;
    text.parse::<u32>().ok()
}

/// Whether a word spells a number from 1 to `most`, without a leading zero.
fn spells_number(number: u32, most: u32, word: &[u8]) -> bool
    ensures { result ≡ ((nat_le 1 number && nat_le number most) && bytes_eq word.now (decimal number)) }
{
    let mut buffer = Buffer::new();
    1 <= number && number <= most && word == buffer.format(number).as_bytes()
}

/// The number from 1 to `most` that a word spells, in decimal digits without a leading zero.
pub(crate) fn number_in(most: u32, word: &[u8]) -> Option<u32>
    ensures { result ≡ number_in most word.now }
{
    let number = parsed(word)?;
    if spells_number(number, most, word) {
        Some(number)
    } else {
        None
    }
}

/// The signed number that a word would have to spell.
fn parsed_signed(word: &[u8]) -> Option<i64>
    ensures { IsParsedSigned word.now result }
{
    let text = as_text(word)?;
    text.parse::<i64>().ok()
}

/// Whether a word spells a stride, place or displacement of at most 2^61 in absolute value, without a leading zero.
fn spells_step(step: i64, word: &[u8]) -> bool
    ensures { result ≡ (is_step step && bytes_eq word.now (signed_decimal step)) }
{
    let mut buffer = Buffer::new();
    step.unsigned_abs() <= 2_305_843_009_213_693_952 && word == buffer.format(step).as_bytes()
}

/// The stride, place or displacement that a word spells: at most 2^61 in absolute value, in decimal digits without a leading zero,
/// with a `-` before one that is negative.
pub(crate) fn step_in(word: &[u8]) -> Option<i64>
    ensures { result ≡ step_in word.now }
{
    let step = parsed_signed(word)?;
    if spells_step(step, word) {
        Some(step)
    } else {
        None
    }
}

/// The kind whose printed name a word is.
#[tactic(auto, unfolding(crate::specs::Reading::kind_in))]
pub(crate) fn kind_in(word: &[u8]) -> Option<Kind>
    ensures { result ≡ kind_in word.now }
{
    let kind = Kind::of_name(word).ok()?;
    if word == kind.name().as_bytes() {
        Some(kind)
    } else {
        None
    }
}
