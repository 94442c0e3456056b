//! Sessions under numbers: packed bytes that are taken and given in pieces (MPI 4.1, section 5.2).
ghost use Rattle.std.specs.Prelude.{◌≡◌, MatchResult};
ghost use Rattle.dt_space.specs.Sessions.{Begins, IsFullOfSessions, IsOpenPackAnswer, IsOpenUnpackAnswer, IsCloseAnswer, IsTakeAnswer, IsGiveAnswer, IsSeekAnswer, IsProgressAnswer};

use crate::fault::SpaceFault;
use crate::number::{Operation, Progress, Receipt};
use crate::session::{Packing, Session, Unpacking};
use crate::space::Space;
use std::alloc::Global;

impl Space {
    /// Lets a number stand for a session that no session had before.
    fn begin(&mut self, session: Session) -> Result<u64, SpaceFault>
        ensures { MatchResult result (λ number. Begins self.old self.new number session) (λ fault. (self.new ≡ self.old) × IsFullOfSessions self.old fault) }
    {
        let number = self.begun;
        if number == u64::MAX {
            return Err(SpaceFault::Spent);
        }
        self.sessions.insert(number, session)?;
        self.begun = number + 1;
        Ok(number)
    }

    /// Opens a session whose packed bytes are taken in pieces, over an operation in a buffer of so many bytes.
    pub fn open_pack(
        &mut self,
        alloc: Global,
        op: Operation,
        buf_len: usize,
    ) -> Result<u64, SpaceFault>
        ensures { IsOpenPackAnswer self.old self.new op buf_len result }
    {
        let session = self.begin_pack(alloc, op, buf_len)?;
        self.begin(Session::Pack(Packing { session, buf_len }))
    }

    /// Opens a session to which packed bytes are given in pieces, over an operation in a buffer of so many bytes.
    pub fn open_unpack(
        &mut self,
        alloc: Global,
        op: Operation,
        buf_len: usize,
    ) -> Result<u64, SpaceFault>
        ensures { IsOpenUnpackAnswer self.old self.new op buf_len result }
    {
        let session = self.begin_unpack(alloc, op, buf_len)?;
        self.begin(Session::Unpack(Unpacking { session, buf_len }))
    }

    /// Closes a session. `NoSuchSession` exactly where the number stands for none.
    pub fn close(&mut self, number: u64) -> Result<(), SpaceFault>
        ensures { IsCloseAnswer self.old self.new number result }
    {
        match self.sessions.remove(&number) {
            Some(_) => Ok(()),
            None => Err(SpaceFault::NoSuchSession),
        }
    }

    /// Puts the next packed bytes of a session's buffer, as it is now, to the front of `out`: as many as have room or are still to come,
    /// and answers how many.
    pub fn take(&mut self, number: u64, buf: &[u8], out: &mut [u8]) -> Result<usize, SpaceFault>
        ensures { IsTakeAnswer self.old self.new number buf.now out.old out.new result }
    {
        let Some(session) = self.sessions.get_mut(&number) else {
            return Err(SpaceFault::NoSuchSession);
        };
        session.take(buf, out)
    }

    /// Gives a session the next packed bytes, and sets the elements of its buffer that they complete.
    pub fn give(&mut self, number: u64, buf: &mut [u8], piece: &[u8]) -> Result<Receipt, SpaceFault>
        ensures { IsGiveAnswer self.old self.new number buf.old buf.new piece.now result }
    {
        let Some(session) = self.sessions.get_mut(&number) else {
            return Err(SpaceFault::NoSuchSession);
        };
        session.give(buf, piece)
    }

    /// Lets a session that packs go on at any of its packed bytes, counted from 0, or at the end. `BadArgument` exactly where it has
    /// fewer, and `NoSuchSession` where the number stands for no session that packs: elements that were unpacked stay as they are, so
    /// there is no way back in the other.
    pub fn seek(&mut self, number: u64, byte: u64) -> Result<(), SpaceFault>
        ensures { IsSeekAnswer self.old self.new number byte result }
    {
        let Some(session) = self.sessions.get_mut(&number) else {
            return Err(SpaceFault::NoSuchSession);
        };
        session.seek(byte)
    }

    /// How many packed bytes a session has in all, and how many of them were passed.
    pub fn progress(&self, number: u64) -> Result<Progress, SpaceFault>
        ensures { IsProgressAnswer self.now number result }
    {
        match self.sessions.get(&number) {
            Some(session) => Ok(session.progress()),
            None => Err(SpaceFault::NoSuchSession),
        }
    }
}
