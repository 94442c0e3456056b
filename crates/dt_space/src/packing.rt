//! Packing and unpacking at once (MPI 4.1, section 5.2).
ghost use Rattle.std.specs.Prelude.{◌≡◌, ◌+◌, ◌<◌, ◌≤◌, ◌++◌, take, drop, IsTrue, MatchOption, MatchResult, IfErr, length};
ghost use Rattle.dt_map.specs.Elements.{are_inside};
ghost use Rattle.dt_map.specs.Packed.{packed};
ghost use Rattle.dt_pack.specs.Session as pack;
ghost use Rattle.dt_unpack.specs.Session as unpack;
ghost use Rattle.dt_space.specs.Packing.{IsReady, IsUnready, IsPackRefusal, IsUnpackRefusal, IsPackCause, IsUnpackCause, IsPacked, IsUnpacked, IsPacking, IsUnpacking};

use crate::fault::SpaceFault;
use crate::number::Operation;
use crate::space::Space;
use dt_pack::{PACKED_MAX, PackFault, PackSession};
use dt_type::Datatype;
use dt_unpack::{UnpackFault, UnpackSession};
use std::alloc::Global;

impl From<PackFault> for SpaceFault {
    ghost use Rattle.std.specs.Prelude.{◌≡◌};
    ghost use Rattle.dt_space.specs.Fault.{pack_fault};

    ghost from_gives = { λ error fault. fault ≡ pack_fault error };

    fn from(error: PackFault) -> SpaceFault {
        match error {
            PackFault::Outside => SpaceFault::Outside,
            PackFault::TooLarge => SpaceFault::TooLarge,
            PackFault::NoMemory => SpaceFault::NoMemory,
        }
    }
}

impl From<UnpackFault> for SpaceFault {
    ghost use Rattle.std.specs.Prelude.{◌≡◌};
    ghost use Rattle.dt_space.specs.Fault.{unpack_fault};

    ghost from_gives = { λ error fault. fault ≡ unpack_fault error };

    fn from(error: UnpackFault) -> SpaceFault {
        match error {
            UnpackFault::Outside => SpaceFault::Outside,
            UnpackFault::Overlap => SpaceFault::Overlap,
            UnpackFault::NoMemory => SpaceFault::NoMemory,
        }
    }
}

/// Where so many bytes end from a position on, if that is among so many.
fn end_of(position: usize, bytes: u64, len: usize) -> Option<usize>
    ensures { MatchOption result (len < position + bytes) (λ end. (end ≡ position + bytes) × (end ≤ len)) }
{
    if position > len || bytes > (len - position) as u64 {
        return None;
    }
    Some(position + bytes as usize)
}

/// Fills a slice with all packed bytes of a session that has just begun.
fn take_all(session: &mut PackSession, buffer: &[u8], out: &mut [u8])
    requires buffer { length buffer.now ≡ session.old.buf_len }
    requires start { session.old.position ≡ 0 }
    requires inside { IsTrue (are_inside (length buffer.now) (pack.placed session.old)) }
    requires room { length out.old ≡ pack.total_of session.old }
    ensures { out.new ≡ packed session.old.rep (pack.placed session.old) buffer.now }
{
    session.take(buffer, out);
}

/// Puts all packed bytes of a session that has just begun into a slice, between two of its places.
fn put_all(session: &mut PackSession, buffer: &[u8], out: &mut [u8], position: usize, end: usize)
    requires buffer { length buffer.now ≡ session.old.buf_len }
    requires start { session.old.position ≡ 0 }
    requires inside { IsTrue (are_inside (length buffer.now) (pack.placed session.old)) }
    requires room { (end ≡ position + pack.total_of session.old) × (end ≤ length out.old) }
    ensures { out.new ≡ take position out.old ++ packed session.old.rep (pack.placed session.old) buffer.now ++ drop end out.old }
{
    take_all(session, buffer, &mut out[position..end]);
}

/// Gives a session that has just begun all of its packed bytes.
fn give_all(session: &mut UnpackSession, buffer: &mut [u8], bytes: &[u8])
    requires buffer { length buffer.old ≡ session.old.buf_len }
    requires start { session.old.given ≡ 0 }
    requires all { length bytes.now ≡ unpack.total_of session.old }
    ensures { buffer.new ≡ unpack.buffer_after session.old buffer.old bytes.now }
{
    let Ok(_) = session.give(buffer, bytes) else {
        unreachable!()
    };
}

impl Space {
    /// The datatype of an operation, where it is committed and the count isn't negative; else `NoSuchType`, `Uncommitted` or `BadArgument`,
    /// the first that holds.
    pub fn ready(&self, alloc: Global, op: Operation) -> Result<Datatype, SpaceFault>
        ensures { MatchResult result (λ t. IsReady self.now op (λ u. u ≡ t)) (IsUnready self.now op) }
    {
        let kept = self.kept(alloc, op.ty)?;
        if !kept.committed {
            return Err(SpaceFault::Uncommitted);
        }
        if op.count < 0 {
            return Err(SpaceFault::BadArgument);
        }
        Ok(kept.ty)
    }

    /// A session that packs an operation from a buffer of so many bytes.
    pub(crate) fn begin_pack(
        &self,
        alloc: Global,
        op: Operation,
        len: usize,
    ) -> Result<PackSession, SpaceFault>
        ensures { MatchResult result (λ session. IsReady self.now op (λ t. IsPacking op len t session)) (IsPackRefusal self.now op len) }
    {
        let ty = self.ready(alloc, op)?;
        if len > PACKED_MAX {
            return Err(SpaceFault::TooLarge);
        }
        let count = op.count.unsigned_abs();
        Ok(PackSession::begin(alloc, &ty, count, op.rep, op.origin, len)?)
    }

    /// A session that unpacks an operation into a buffer of so many bytes.
    pub(crate) fn begin_unpack(
        &self,
        alloc: Global,
        op: Operation,
        len: usize,
    ) -> Result<UnpackSession, SpaceFault>
        ensures { MatchResult result (λ session. IsReady self.now op (λ t. IsUnpacking op len t session)) (IsUnpackRefusal self.now op len) }
    {
        let ty = self.ready(alloc, op)?;
        if len > PACKED_MAX {
            return Err(SpaceFault::TooLarge);
        }
        let count = op.count.unsigned_abs();
        Ok(UnpackSession::begin(alloc, &ty, count, op.rep, op.origin, len)?)
    }

    /// `MPI_Pack`: puts the packed bytes of an operation in `inbuf` into `outbuf`, from a position on, and answers where they end. Nothing
    /// else of `outbuf` changes, and nothing at all where the call is refused.
    pub fn pack(
        &self,
        alloc: Global,
        op: Operation,
        inbuf: &[u8],
        outbuf: &mut [u8],
        position: usize,
    ) -> Result<usize, SpaceFault>
        ensures answer { MatchResult result (λ end. IsReady self.now op (λ t. IsPacked op t inbuf.now outbuf.old outbuf.new position end)) (IsPackCause self.now op (length inbuf.now) (length outbuf.old) position) }
        ensures unchanged { IfErr result (λ _. outbuf.new ≡ outbuf.old) }
    {
        let mut session = self.begin_pack(alloc, op, inbuf.len())?;
        let Some(end) = end_of(position, session.total(), outbuf.len()) else {
            return Err(SpaceFault::NoRoom);
        };
        put_all(&mut session, inbuf, outbuf, position, end);
        Ok(end)
    }

    /// `MPI_Unpack`: sets the elements of an operation in `outbuf` from the packed bytes in `inbuf`, from a position on, and answers where
    /// these end. No other byte of `outbuf` changes, and nothing at all where the call is refused.
    pub fn unpack(
        &self,
        alloc: Global,
        op: Operation,
        inbuf: &[u8],
        position: usize,
        outbuf: &mut [u8],
    ) -> Result<usize, SpaceFault>
        ensures answer { MatchResult result (λ end. IsReady self.now op (λ t. IsUnpacked op t inbuf.now outbuf.old outbuf.new position end)) (IsUnpackCause self.now op (length outbuf.old) (length inbuf.now) position) }
        ensures unchanged { IfErr result (λ _. outbuf.new ≡ outbuf.old) }
    {
        let mut session = self.begin_unpack(alloc, op, outbuf.len())?;
        let Some(end) = end_of(position, session.total(), inbuf.len()) else {
            return Err(SpaceFault::NoRoom);
        };
        give_all(&mut session, outbuf, &inbuf[position..end]);
        Ok(end)
    }
}
