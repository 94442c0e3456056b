//! Words of one size, as bytes.
ghost use Rattle.std.specs.Prelude.{◌≡◌, ◌<◌, ◌≤◌, ◌^◌, ◌++◌, ℕ, drop, length};
ghost use Rattle.byteorder.specs.Endian.{little_number, little_bytes};

use byteorder::{ByteOrder, LittleEndian};

/// Words of so many bytes. A size that is known makes one move of a word.
pub(crate) trait Width {
    /// How many bytes a word has.
    ghost size: { Self → ℕ };

    fn size(&self) -> usize
        ensures { result ≡ size self.now };

    /// The word that the first bytes are.
    fn word(&self, bytes: &[u8]) -> u64
        requires { size self.now ≤ length bytes.now }
        ensures value { result ≡ little_number (size self.now) bytes.now }
        ensures word { result < 256 ^ size self.now };

    /// Puts a word's bytes to the front. The rest stays.
    fn put(&self, word: u64, bytes: &mut [u8])
        requires room { size self.now ≤ length bytes.old }
        requires word { word < 256 ^ size self.now }
        ensures { bytes.new ≡ little_bytes (size self.now) word ++ drop (size self.now) bytes.old };
}

/// Words of one byte.
#[derive(Drop)]
pub(crate) struct One;

impl Width for One {
    ghost size = { λ w. 1 };

    fn size(&self) -> usize {
        1
    }

    fn word(&self, bytes: &[u8]) -> u64 {
        u64::from(bytes[0])
    }

    fn put(&self, word: u64, bytes: &mut [u8]) {
        bytes[0] = word as u8;
    }
}

/// Words of two bytes.
#[derive(Drop)]
pub(crate) struct Two;

impl Width for Two {
    ghost size = { λ w. 2 };

    fn size(&self) -> usize {
        2
    }

    fn word(&self, bytes: &[u8]) -> u64 {
        u64::from(LittleEndian::read_u16(bytes))
    }

    fn put(&self, word: u64, bytes: &mut [u8]) {
        LittleEndian::write_u16(bytes, word as u16);
    }
}

/// Words of four bytes.
#[derive(Drop)]
pub(crate) struct Four;

impl Width for Four {
    ghost size = { λ w. 4 };

    fn size(&self) -> usize {
        4
    }

    fn word(&self, bytes: &[u8]) -> u64 {
        u64::from(LittleEndian::read_u32(bytes))
    }

    fn put(&self, word: u64, bytes: &mut [u8]) {
        LittleEndian::write_u32(bytes, word as u32);
    }
}

/// Words of eight bytes.
#[derive(Drop)]
pub(crate) struct Eight;

impl Width for Eight {
    ghost size = { λ w. 8 };

    fn size(&self) -> usize {
        8
    }

    fn word(&self, bytes: &[u8]) -> u64 {
        LittleEndian::read_u64(bytes)
    }

    fn put(&self, word: u64, bytes: &mut [u8]) {
        LittleEndian::write_u64(bytes, word);
    }
}
