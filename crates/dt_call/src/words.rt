//! The words of the command line, and what they ask for.
ghost use Rattle.std.specs.Prelude.{◌≡◌, bytes_eq, decimal, map, string_bytes};
ghost use Rattle.dt_call.specs.Words.{alone, asked_by, asked_with, number_of, reads};

use dt_script::Name;
use itoa::Buffer;

/// What the program is asked for.
#[derive(Drop)]
pub enum Asked {
    /// The replies to the lines of a script.
    Run,
    /// The certificate of the type of a name, under the last weights of a script.
    Certify(Name),
    /// Whether a certificate holds.
    Check,
    /// A certificate of any version, in the newest one.
    Migrate,
    /// What came of the script of a number.
    Gen(u32),
}

impl Asked {
    /// Whether the source is read for it.
    pub(crate) fn reads(&self) -> bool
        ensures { result ≡ reads self.now }
    {
        match self {
            Asked::Gen(_) => false,
            Asked::Run | Asked::Certify(_) | Asked::Check | Asked::Migrate => true,
        }
    }
}

/// Whether a word is the digits of a number.
fn spells(word: &str, number: u32) -> bool
    ensures { result ≡ bytes_eq word.now (decimal number) }
{
    let mut buffer = Buffer::new();
    word.as_bytes() == buffer.format(number).as_bytes()
}

/// The number of 32 bits that a word spells, in digits without a leading zero.
fn number_of(word: &str) -> Option<u32>
    ensures { result ≡ number_of word.now }
{
    let number = word.parse::<u32>().ok()?;
    if spells(word, number) {
        Some(number)
    } else {
        None
    }
}

/// What a word asks for that stands alone.
fn alone(word: &[u8]) -> Option<Asked>
    ensures { result ≡ alone word.now }
{
    if word == b"run".as_slice() {
        return Some(Asked::Run);
    }
    if word == b"check".as_slice() {
        return Some(Asked::Check);
    }
    if word == b"migrate".as_slice() {
        return Some(Asked::Migrate);
    }
    None
}

/// What a word asks for with one more behind it.
fn asked_with(word: &[u8], other: &str) -> Option<Asked>
    ensures { result ≡ asked_with word.now other.now }
{
    if word == b"certify".as_slice() {
        let name = Name::new(other.as_bytes())?;
        return Some(Asked::Certify(name));
    }
    if word == b"gen".as_slice() {
        let number = number_of(other)?;
        return Some(Asked::Gen(number));
    }
    None
}

/// What the words ask for, if they are of one of the forms. It takes no memory.
pub(crate) fn read_words(words: &[String]) -> Option<Asked>
    ensures { result ≡ asked_by (map string_bytes words.now) }
{
    match words {
        [word] => alone(word.as_bytes()),
        [word, other] => asked_with(word.as_bytes(), other.as_str()),
        _ => None,
    }
}
