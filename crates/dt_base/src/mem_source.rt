ghost use Rattle.std.specs.Prelude.{◌≡◌, ◌↔◌, ◌≤◌, Some, IsErr, IfOk, length};
ghost use Rattle.std.specs.Io.KnownBytes.{ReadConsumes};
ghost use Rattle.dt_base.specs.MemSource.{source_of, ReadFails, given_len, after_read};
ghost use Rattle.dt_base.specs.Transfer.{KeepsRest};

use crate::{Failed, Source};
use std::marker::Model;

/// A source of bytes in memory, which gives them in pieces of at most `most` and fails where it is told to.
#[derive(Drop)]
pub struct MemSource {
    bytes: Vec<u8>,
    start: usize,
    most: usize,
    fail: Vec<u64>,
    reads: u64,
    faults: u64,
    taken: u64,
}

impl Model for MemSource {
    ghost use Rattle.std.specs.Prelude.{◌≤◌, drop, length};
    ghost use Rattle.dt_base.specs.MemSource.{SourceState};

    ghost Value = { SourceState };

    ghost view = { λ s. record {
      left = drop s.start s.bytes.items;
      most = s.most;
      fail = s.fail.items;
      reads = s.reads;
      faults = s.faults;
      taken = s.taken;
    } };

    ghost invariant = { λ s. (s.start ≤ length s.bytes.items) × (1 ≤ s.most) };
}

impl MemSource {
    /// A source of `bytes`. Its reads whose numbers are in `fail` fail; they are numbered from 0, and the
    /// number stands still at `u64::MAX`. It takes no memory.
    pub fn new(bytes: Vec<u8>, most: usize, fail: Vec<u64>) -> MemSource
        requires { 1 ≤ most }
        ensures { result ≡ source_of bytes.items most fail.items }
    {
        MemSource {
            bytes,
            start: 0,
            most,
            fail,
            reads: 0,
            faults: 0,
            taken: 0,
        }
    }

    /// The bytes that are left.
    pub fn left(&self) -> &[u8]
        ensures { result.now ≡ self.now.left }
    {
        &self.bytes[self.start..]
    }
}

impl Source for MemSource {
    ghost left = { λ s. Some s.left };

    ghost faults = { λ s. s.faults };

    ghost taken = { λ s. s.taken };

    /// Gives as many bytes as the least of `most`, the number left and the room. It takes no memory.
    fn read(&mut self, out: &mut [u8]) -> Result<usize, Failed>
        ensures fails { IsErr result ↔ ReadFails self.old }
        ensures gives { IfOk result (λ n. n ≡ given_len self.old (length out.old)) }
        ensures after { self.new ≡ after_read self.old result }
        ensures bytes { ReadConsumes (Some self.old.left) (Some self.new.left) result out.new }
        ensures rest { KeepsRest result out.old out.new }
    {
        let number = self.reads;
        self.reads = number.saturating_add(1);
        if self.fail.contains(&number) {
            self.faults = self.faults.saturating_add(1);
            return Err(Failed);
        }
        let left = &self.bytes[self.start..];
        let count = self.most.min(left.len()).min(out.len());
        out[..count].copy_from_slice(&left[..count]);
        self.start += count;
        self.taken = self.taken.saturating_add(count as u64);
        Ok(count)
    }
}
