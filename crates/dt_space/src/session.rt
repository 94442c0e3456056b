//! Sessions beside the length of their buffer.
ghost use Rattle.std.specs.Prelude.{◌≡◌, length};
ghost use Rattle.dt_space.specs.declared.session.Session.TheVariants.{Pack, Unpack};
ghost use Rattle.dt_space.specs.Sessions.{IsTaken, IsGiven, IsSought, taken, given, sought, progress_of};

use crate::fault::SpaceFault;
use crate::number::{Progress, Receipt};
use dt_pack::PackSession;
use dt_unpack::{Truncated, UnpackSession};
use std::marker::Model;

/// A session whose packed bytes are taken, and how many bytes its buffer has.
#[derive(Drop)]
pub struct Packing {
    pub(crate) session: PackSession,
    pub(crate) buf_len: usize,
}

impl Model for Packing {
    ghost use Rattle.std.specs.Prelude.{◌≡◌};
    ghost use Rattle.dt_pack.specs.Session.{Session};

    ghost Value = { Session };

    ghost view = { λ p. p.session };

    ghost invariant = { λ p. p.buf_len ≡ p.session.buf_len };
}

/// A session to which packed bytes are given, and how many bytes its buffer has.
#[derive(Drop)]
pub struct Unpacking {
    pub(crate) session: UnpackSession,
    pub(crate) buf_len: usize,
}

impl Model for Unpacking {
    ghost use Rattle.std.specs.Prelude.{◌≡◌};
    ghost use Rattle.dt_unpack.specs.Session.{Session};

    ghost Value = { Session };

    ghost view = { λ u. u.session };

    ghost invariant = { λ u. u.buf_len ≡ u.session.buf_len };
}

/// A session over packed bytes (MPI 4.1, section 5.2): they are taken from one that packs, and given to one that unpacks.
#[derive(Drop)]
pub enum Session {
    Pack(Packing),
    Unpack(Unpacking),
}

/// Takes the next packed bytes from a session, whose buffer has the length of opening.
fn take_from(packing: &mut Packing, buf: &[u8], out: &mut [u8]) -> Result<usize, SpaceFault>
    ensures answer { IsTaken (Pack packing.old) buf.now out.old out.new result }
    ensures session { Pack packing.new ≡ taken (Pack packing.old) result }
{
    if packing.buf_len != buf.len() {
        return Err(SpaceFault::BadArgument);
    }
    Ok(packing.session.take(buf, out))
}

/// Gives a session the next packed bytes, where its buffer has the length of opening and so many bytes are still to come.
fn give_to(unpacking: &mut Unpacking, buf: &mut [u8], piece: &[u8]) -> Result<Receipt, SpaceFault>
    ensures answer { IsGiven (Unpack unpacking.old) buf.old buf.new piece.now result }
    ensures session { Unpack unpacking.new ≡ given (Unpack unpacking.old) piece.now result }
{
    if unpacking.buf_len != buf.len() {
        return Err(SpaceFault::BadArgument);
    }
    match unpacking.session.give(buf, piece) {
        Ok(given) => Ok(Receipt {
            completed: given.elements,
            held: u64::from(given.held),
        }),
        Err(Truncated) => Err(SpaceFault::NoRoom),
    }
}

/// Goes to a packed byte of a session, or to its end.
fn seek_in(packing: &mut Packing, byte: u64) -> Result<(), SpaceFault>
    ensures answer { IsSought (Pack packing.old) byte result }
    ensures session { Pack packing.new ≡ sought (Pack packing.old) byte result }
{
    if byte > packing.session.total() {
        return Err(SpaceFault::BadArgument);
    }
    packing.session.seek(byte);
    Ok(())
}

impl Session {
    /// Takes the next packed bytes, where the session packs.
    pub(crate) fn take(&mut self, buf: &[u8], out: &mut [u8]) -> Result<usize, SpaceFault>
        ensures answer { IsTaken self.old buf.now out.old out.new result }
        ensures session { self.new ≡ taken self.old result }
    {
        match self {
            Session::Pack(packing) => take_from(packing, buf, out),
            Session::Unpack(_) => Err(SpaceFault::NoSuchSession),
        }
    }

    /// Gives the next packed bytes, where the session unpacks.
    pub(crate) fn give(&mut self, buf: &mut [u8], piece: &[u8]) -> Result<Receipt, SpaceFault>
        ensures answer { IsGiven self.old buf.old buf.new piece.now result }
        ensures session { self.new ≡ given self.old piece.now result }
    {
        match self {
            Session::Unpack(unpacking) => give_to(unpacking, buf, piece),
            Session::Pack(_) => Err(SpaceFault::NoSuchSession),
        }
    }

    /// Goes to a packed byte, or to the end, where the session packs.
    pub(crate) fn seek(&mut self, byte: u64) -> Result<(), SpaceFault>
        ensures answer { IsSought self.old byte result }
        ensures session { self.new ≡ sought self.old byte result }
    {
        match self {
            Session::Pack(packing) => seek_in(packing, byte),
            Session::Unpack(_) => Err(SpaceFault::NoSuchSession),
        }
    }

    /// How many packed bytes there are, and how many were passed.
    pub(crate) fn progress(&self) -> Progress
        ensures { result ≡ progress_of self.now }
    {
        match self {
            Session::Pack(packing) => Progress {
                total: packing.session.total(),
                position: packing.session.position(),
            },
            Session::Unpack(unpacking) => Progress {
                total: unpacking.session.total(),
                position: unpacking.session.cursor().position(),
            },
        }
    }
}
