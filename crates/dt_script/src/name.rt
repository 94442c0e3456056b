ghost use Rattle.std.specs.Prelude.{◌≡◌, IsTrue, IfOk};
ghost use Rattle.std.specs.List.{list_all};
ghost use Rattle.dt_script.specs.Name.{is_letter, begins_with_letter, is_name_byte, is_name, name_of, begins_with_mpi};

use crate::number::is_digit;
use arrayvec::ArrayVec;
use dt_kinds::NoMemory;
use std::marker::Model;

/// A name of a script: a letter first, letters, digits and `_`, 1 to 32 of them.
#[derive(Clone, PartialEq, Eq, PartialOrd, Ord, Drop)]
pub struct Name {
    bytes: ArrayVec<u8, 32>,
}

impl Model for Name {
    ghost use Rattle.std.specs.Prelude.{ℕ, List, IsTrue};
    ghost use Rattle.dt_script.specs.Name.{is_name};

    ghost Value = { List ℕ };

    ghost view = { λ n. n.bytes.items };

    ghost invariant = { λ n. IsTrue (is_name n.bytes.items) };

    ghost inverse = { λ bytes. record { bytes = record { items = bytes } } };
}

/// Whether a byte is a letter of ASCII.
fn is_letter(b: u8) -> bool
    ensures { result ≡ is_letter b }
{
    (b'A'..=b'Z').contains(&b) || (b'a'..=b'z').contains(&b)
}

/// Whether a byte is a letter, a digit or `_`.
fn is_name_byte(b: u8) -> bool
    ensures { result ≡ is_name_byte b }
{
    is_letter(b) || is_digit(b) || b == b'_'
}

fn begins_with_letter(word: &[u8]) -> bool
    ensures { result ≡ begins_with_letter word.now }
{
    match word {
        [b, ..] => is_letter(*b),
        [] => false,
    }
}

fn are_name_bytes(word: &[u8]) -> bool
    ensures { result ≡ list_all is_name_byte word.now }
{
    word.iter().all(|b| is_name_byte(*b))
}

fn is_name(word: &[u8]) -> bool
    ensures { result ≡ is_name word.now }
{
    begins_with_letter(word) && are_name_bytes(word) && word.len() <= 32
}

impl Name {
    /// The name that a word spells, or None where it is no name.
    pub fn new(word: &[u8]) -> Option<Name>
        ensures { result ≡ name_of word.now }
    {
        if !is_name(word) {
            return None;
        }
        let bytes = ArrayVec::try_from(word).ok()?;
        Some(Name { bytes })
    }

    /// The bytes of the name.
    pub fn as_bytes(&self) -> &[u8]
        ensures value { result.now ≡ self.now }
        ensures name { IsTrue (is_name self.now) }
    {
        self.bytes.as_slice()
    }

    /// The same name again.
    pub fn copied(&self) -> Result<Name, NoMemory>
        ensures same { IfOk result (λ name. name ≡ self.now) }
    {
        Ok(self.clone()?)
    }

    /// Whether the name begins as those of MPI do.
    pub fn is_reserved(&self) -> bool
        ensures { result ≡ begins_with_mpi self.now }
    {
        self.bytes.as_slice().starts_with(b"MPI_")
    }
}
