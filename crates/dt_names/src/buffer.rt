ghost use Rattle.std.specs.Prelude.{◌≡◌, IfOk, length, pos};
ghost use Rattle.dt_names.specs.Names.{bytes_of};
ghost use Rattle.dt_script.specs.declared.command.Fill.TheVariants.{Zero, Count, Hex};

use dt_kinds::NoMemory;
use std::alloc::Global;
use std::marker::Model;

/// The bytes of a buffer.
#[derive(Drop)]
pub struct Buffer {
    bytes: Vec<u8>,
}

impl Model for Buffer {
    ghost use Rattle.std.specs.Prelude.{ℕ, List};

    ghost Value = { List ℕ };

    ghost view = { λ b. b.bytes.items };
}

impl Buffer {
    /// A buffer of zeros.
    pub fn zeros(alloc: Global, len: u32) -> Result<Buffer, NoMemory>
        ensures { IfOk result (λ b. b ≡ bytes_of (Zero (pos len))) }
    {
        let mut bytes = Vec::new(alloc);
        bytes.resize(len as usize, 0)?;
        Ok(Buffer { bytes })
    }

    /// A buffer whose byte i is i mod 256.
    pub fn counting(alloc: Global, len: u32) -> Result<Buffer, NoMemory>
        ensures { IfOk result (λ b. b ≡ bytes_of (Count (pos len))) }
    {
        let mut bytes = Vec::new(alloc);
        for i in 0..len {
            bytes.push((i % 256) as u8)?;
        }
        Ok(Buffer { bytes })
    }

    /// A buffer of these bytes.
    pub fn copy_of(alloc: Global, bytes: &[u8]) -> Result<Buffer, NoMemory>
        ensures { IfOk result (λ b. b ≡ bytes.now) }
    {
        let bytes = Vec::from_slice(alloc, bytes)?;
        Ok(Buffer { bytes })
    }

    /// A buffer of these bytes. It takes no memory.
    pub fn from_vec(bytes: Vec<u8>) -> Buffer
        ensures { result ≡ bytes.items }
    {
        Buffer { bytes }
    }

    /// The bytes of the buffer. It takes no memory.
    pub fn into_vec(self) -> Vec<u8>
        ensures { result.items ≡ self }
    {
        self.bytes
    }

    pub fn as_slice(&self) -> &[u8]
        ensures { result.now ≡ self.now }
    {
        &self.bytes
    }

    pub fn len(&self) -> usize
        ensures { result ≡ length self.now }
    {
        self.bytes.len()
    }
}
