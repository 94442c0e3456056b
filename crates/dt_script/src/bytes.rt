//! Bytes that a line spells.
ghost use Rattle.std.specs.Prelude.{◌≡◌};
ghost use Rattle.dt_script.specs.Hex.{hex_of};
ghost use Rattle.dt_script.specs.Reading.{Gives};

use crate::line::LineFault;
use hex::FromHexError;
use std::alloc::Global;
use std::marker::Model;

/// Bytes, as a word of hexadecimal digits spells them. Contracts see them as a list.
#[derive(Drop)]
pub struct Bytes {
    bytes: Vec<u8>,
}

impl Model for Bytes {
    ghost use Rattle.std.specs.Prelude.{ℕ, List};

    ghost Value = { List ℕ };

    ghost view = { λ b. b.bytes.items };
}

impl Bytes {
    /// These bytes. It takes no memory.
    pub fn from_vec(bytes: Vec<u8>) -> Bytes
        ensures { result ≡ bytes.items }
    {
        Bytes { bytes }
    }

    /// The bytes that a word spells in hexadecimal, `-` for none.
    #[tactic(auto, unfolding(crate::specs::Hex::hex_of))]
    pub(crate) fn of_word(alloc: Global, word: &[u8]) -> Result<Bytes, LineFault>
        ensures { Gives (λ x. x) result (hex_of word.now) }
    {
        if word == b"-".as_slice() {
            return Ok(Bytes::from_vec(Vec::new(alloc)));
        }
        if word.is_empty() {
            return Err(LineFault::Syntax);
        }
        match hex::decode(alloc, word) {
            Ok(bytes) => Ok(Bytes::from_vec(bytes)),
            Err(FromHexError::OutOfMemory) => Err(LineFault::NoMemory),
            Err(_) => Err(LineFault::Syntax),
        }
    }

    /// The bytes in their order.
    pub fn as_slice(&self) -> &[u8]
        ensures { result.now ≡ self.now }
    {
        self.bytes.as_slice()
    }
}
