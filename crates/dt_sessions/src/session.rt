//! Open sessions.
ghost use Rattle.std.specs.Prelude.{◌≡◌, ◌≤◌, length};
ghost use Rattle.dt_sessions.specs.Open.{is_packing, total_in, passed_in, buf_len_in, next_in, at_byte_in, given_in, buffer_in, receipt_in, receipt_of, CanGive, CanSeek, CanTake};
ghost use Rattle.dt_unpack.specs.Session as unpack;

use dt_pack::PackSession;
use dt_reply::Receipt;
use dt_script::Name;
use dt_unpack::{Truncated, UnpackSession};

/// A session over packed bytes (MPI 4.1, section 5.2): they are taken from one that packs, and given to one that unpacks.
#[derive(Drop)]
pub enum Session {
    Pack(PackSession),
    Unpack(UnpackSession),
}

/// An open session, and the name of the buffer that it is over.
#[derive(Drop)]
pub struct Opened {
    pub buffer: Name,
    pub session: Session,
}

/// Gives an unpack session the next packed bytes, of which there are so many still to come. Answers what they came to.
fn give_into(session: &mut UnpackSession, buffer: &mut [u8], piece: &[u8]) -> Receipt
    requires buffer { length buffer.old ≡ session.old.buf_len }
    requires more { length piece.now ≤ unpack.rest_of session.old }
    ensures session { session.new ≡ unpack.after session.old piece.now }
    ensures buffer { buffer.new ≡ unpack.buffer_after session.old buffer.old piece.now }
    ensures len { length buffer.new ≡ length buffer.old }
    ensures receipt { result ≡ receipt_of session.old piece.now }
{
    let given = match session.give(buffer, piece) {
        Ok(given) => given,
        Err(Truncated) => unreachable!(),
    };
    let counts = session.counts();
    Receipt {
        completed: given.elements,
        held: given.held,
        bytes: counts.bytes,
        elements: counts.elements,
        copies: counts.copies,
    }
}

impl Session {
    /// Whether packed bytes are taken from the session; else they are given to it.
    pub fn is_packing(&self) -> bool
        ensures { result ≡ is_packing self.now }
    {
        matches!(self, Session::Pack(_))
    }

    /// How many packed bytes there are in all.
    pub fn total(&self) -> u64
        ensures { result ≡ total_in self.now }
    {
        match self {
            Session::Pack(session) => session.total(),
            Session::Unpack(session) => session.total(),
        }
    }

    /// How many packed bytes were passed.
    pub fn passed(&self) -> u64
        ensures value { result ≡ passed_in self.now }
        ensures within { result ≤ total_in self.now }
    {
        match self {
            Session::Pack(session) => session.position(),
            Session::Unpack(session) => session.cursor().position(),
        }
    }

    /// Goes to a packed byte of a pack session, or to the end. It takes no memory.
    pub fn seek(&mut self, byte: u64)
        requires { CanSeek self.old byte }
        ensures { self.new ≡ at_byte_in self.old byte }
    {
        match self {
            Session::Pack(session) => session.seek(byte),
            Session::Unpack(_) => unreachable!(),
        }
    }

    /// Fills `out` with the next packed bytes of the buffer as it is now, and stays where it is. It takes no memory.
    pub fn peek(&mut self, buffer: &[u8], out: &mut [u8])
        requires buffer { length buffer.now ≡ buf_len_in self.old }
        requires more { CanTake self.old (length out.old) }
        ensures same { self.new ≡ self.old }
        ensures bytes { out.new ≡ next_in self.old buffer.now (length out.old) }
    {
        match self {
            Session::Pack(session) => {
                let before = session.position();
                session.take(buffer, out);
                session.seek(before);
            }
            Session::Unpack(_) => unreachable!(),
        }
    }

    /// Gives an unpack session the next packed bytes, and sets the elements of the buffer that they complete. Answers what they came
    /// to. It takes no memory.
    pub fn give(&mut self, buffer: &mut [u8], piece: &[u8]) -> Receipt
        requires buffer { length buffer.old ≡ buf_len_in self.old }
        requires more { CanGive self.old piece.now }
        ensures session { self.new ≡ given_in self.old piece.now }
        ensures buffer { buffer.new ≡ buffer_in self.old buffer.old piece.now }
        ensures len { length buffer.new ≡ length buffer.old }
        ensures receipt { result ≡ receipt_in self.old piece.now }
    {
        match self {
            Session::Pack(_) => unreachable!(),
            Session::Unpack(session) => give_into(session, buffer, piece),
        }
    }
}
