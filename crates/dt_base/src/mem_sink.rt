ghost use Rattle.std.specs.Prelude.{◌≡◌, ◌↔◌, ◌≤◌, Some, IsErr, IfOk};
ghost use Rattle.dt_base.specs.MemSink.{sink_of, WriteFails, accepted_len, after_write};
ghost use Rattle.dt_base.specs.Transfer.{TakesSome};

use crate::{Failed, Sink};
use dt_kinds::NoMemory;
use std::alloc::Global;
use std::marker::Model;

/// A sink in memory, which takes pieces of at most `most` bytes until its room is full, and fails where it is told to.
#[derive(Drop)]
pub struct MemSink {
    bytes: Vec<u8>,
    room: usize,
    most: usize,
    fail: Vec<u64>,
    writes: u64,
    faults: u64,
}

impl Model for MemSink {
    ghost use Rattle.std.specs.Prelude.{◌+◌, ◌≤◌, length, vec_capacity};
    ghost use Rattle.dt_base.specs.MemSink.{SinkState};

    ghost Value = { SinkState };

    ghost view = { λ s. record {
      held = s.bytes.items;
      room = s.room;
      most = s.most;
      fail = s.fail.items;
      writes = s.writes;
      faults = s.faults;
    } };

    ghost invariant = { λ s. (length s.bytes.items + s.room ≤ vec_capacity s.bytes) × (1 ≤ s.most) };
}

impl MemSink {
    /// A sink with room for `room` bytes, which is reserved here. Its writes whose numbers are in `fail`
    /// fail; they are numbered from 0, and the number stands still at `u64::MAX`.
    pub fn new(alloc: Global, room: usize, most: usize, fail: Vec<u64>) -> Result<MemSink, NoMemory>
        requires { 1 ≤ most }
        ensures { IfOk result (λ sink. sink ≡ sink_of room most fail.items) }
    {
        let Ok(bytes) = Vec::with_capacity(alloc, room) else {
            return Err(NoMemory);
        };
        Ok(MemSink {
            bytes,
            room,
            most,
            fail,
            writes: 0,
            faults: 0,
        })
    }

    /// The bytes that it holds.
    pub fn held(&self) -> &[u8]
        ensures { result.now ≡ self.now.held }
    {
        &self.bytes
    }
}

impl Sink for MemSink {
    ghost held = { λ s. Some s.held };

    ghost faults = { λ s. s.faults };

    /// Takes as many bytes as the least of `most`, the room left and the length of the piece. It takes no memory.
    fn write(&mut self, piece: &[u8]) -> Result<usize, Failed>
        ensures fails { IsErr result ↔ WriteFails self.old piece.now }
        ensures takes { IfOk result (λ n. n ≡ accepted_len self.old piece.now) }
        ensures after { self.new ≡ after_write self.old piece.now result }
        ensures some { TakesSome result piece.now }
    {
        let number = self.writes;
        self.writes = number.saturating_add(1);
        if self.fail.contains(&number) || (self.room == 0 && !piece.is_empty()) {
            self.faults = self.faults.saturating_add(1);
            return Err(Failed);
        }
        let count = self.most.min(self.room).min(piece.len());
        self.bytes.extend_from_slice(&piece[..count]).unwrap();
        self.room -= count;
        Ok(count)
    }
}
