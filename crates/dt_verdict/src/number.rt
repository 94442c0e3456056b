//! Numbers that single words spell, in decimal digits without a leading zero.
ghost use Rattle.std.specs.Prelude.{◌≡◌, ◌&&◌, nat_le, MatchOption, decimal, bytes_eq, IsUtf8};
ghost use Rattle.dt_verdict.specs.Number.{IsParsed, fitting, natural_in, negative_in, positive_in, signed_in};

use itoa::Buffer;

/// A word as text, where it is some.
fn as_text(word: &[u8]) -> Option<&str>
    ensures { MatchOption result (¬ IsUtf8 word.now) (λ text. text.now ≡ word.now) }
{
    std::str::from_utf8(word).ok()
}

/// The number that a word would have to spell.
fn parsed(word: &[u8]) -> Option<u64>
    ensures { IsParsed word.now result }
{
    let text = as_text(word)?;
    text.parse::<u64>().ok()
}

/// Whether a word spells a number of at most `most`.
fn spells(number: u64, most: u64, word: &[u8]) -> bool
    ensures { result ≡ (nat_le number most && bytes_eq word.now (decimal number)) }
{
    let mut buffer = Buffer::new();
    number <= most && word == buffer.format(number).as_bytes()
}

/// The number of at most `most` that a word spells.
pub(crate) fn natural_in(most: u64, word: &[u8]) -> Option<u64>
    ensures { result ≡ natural_in most word.now }
{
    let number = parsed(word)?;
    if spells(number, most, word) {
        Some(number)
    } else {
        None
    }
}

/// A number, where 64 bits hold it with its sign.
fn fitting(number: i128) -> Option<i64>
    ensures { result ≡ fitting number }
{
    i64::try_from(number).ok()
}

/// The negative number whose digits a word is.
#[tactic(auto, unfolding(crate::specs::Number::negative_in))]
fn negative_in(digits: &[u8]) -> Option<i64>
    ensures { result ≡ negative_in digits.now }
{
    let number = natural_in(u64::MAX, digits)?;
    if number >= 1 {
        fitting(-i128::from(number))
    } else {
        None
    }
}

/// The number that isn't negative that a word spells.
#[tactic(auto, unfolding(crate::specs::Number::positive_in))]
fn positive_in(word: &[u8]) -> Option<i64>
    ensures { result ≡ positive_in word.now }
{
    let number = natural_in(u64::MAX, word)?;
    fitting(i128::from(number))
}

/// The number of 64 bits that a word spells, with a `-` before one that is negative.
#[tactic(auto, unfolding(crate::specs::Number::signed_in))]
pub(crate) fn signed_in(word: &[u8]) -> Option<i64>
    ensures { result ≡ signed_in word.now }
{
    let (first, digits) = word.split_first()?;
    if *first == b'-' {
        negative_in(digits)
    } else {
        positive_in(word)
    }
}
