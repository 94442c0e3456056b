//! Commands on sessions that receive: `unpack SESSION REP COUNT TYPE BUFFER ORIGIN`, `give SESSION HEX`.
ghost use Rattle.std.specs.Prelude.{◌≡◌, ◌≤◌, IsTrue, IfOk, MatchOption, OnErr};
ghost use Rattle.dt_map.specs.Elements.{elements, are_inside, Overlaps};
ghost use Rattle.dt_machine.specs.Operation.{giving_row};
ghost use Rattle.dt_machine.specs.Outcome.{ComesTo};
ghost use Rattle.dt_machine.specs.Row.{IsFirst, IsClear};
ghost use Rattle.dt_machine.specs.Step.{Obeys};
ghost use Rattle.dt_reply.specs.Reply.{Responds};
ghost use Rattle.dt_script.specs.declared.command.Command.TheVariants.{Give, Unpack};
ghost use Rattle.dt_type.specs.Datatype.{typemap_of};
ghost use Rattle.dt_unpack.specs.Session as unpack;

use crate::machine::Machine;
use crate::outcome::{Change, Outcome};
use dt_kinds::{NoMemory, Rep};
use dt_names::Stop;
use dt_reply::{RECEIPT_ROOM, Refusal, Reply, write_receipt};
use dt_script::Name;
use dt_sessions::{Opened, Session};
use dt_type::Datatype;
use dt_unpack::{UnpackFault, UnpackSession};
use std::alloc::Global;

/// An unpack session, as it is opened, or nothing where two elements have a common byte.
fn begun(
    alloc: Global,
    ty: &Datatype,
    copies: u32,
    rep: Rep,
    origin: i64,
    len: usize,
) -> Result<Option<UnpackSession>, NoMemory>
    requires small { len ≤ 16777216 }
    requires inside { IsTrue (are_inside len (elements (typemap_of ty.now) copies origin)) }
    ensures { IfOk result (λ found. MatchOption found (Overlaps (elements (typemap_of ty.now) copies origin)) (λ s. (s ≡ unpack.opened (typemap_of ty.now) copies rep origin len) × (¬ Overlaps (elements (typemap_of ty.now) copies origin)))) }
{
    match UnpackSession::begin(alloc, ty, copies, rep, origin, len) {
        Ok(session) => Ok(Some(session)),
        Err(UnpackFault::Overlap) => Ok(None),
        Err(UnpackFault::Outside) => unreachable!(),
        Err(UnpackFault::NoMemory) => Err(NoMemory),
    }
}

impl Machine {
    /// `unpack SESSION REP COUNT TYPE BUFFER ORIGIN`
    pub(crate) fn unpack(
        &self,
        name: &Name,
        rep: Rep,
        count: i32,
        ty: &Name,
        buffer: &Name,
        origin: i64,
    ) -> Result<Outcome, Stop>
        ensures { ComesTo self.now (Unpack name.now rep count ty.now buffer.now origin) result }
    {
        let Some(len) = self.buffer_len(buffer) else {
            return Err(Stop::Refused(Refusal::UnknownName));
        };
        if let Some(refusal) = self.refused_session(name, ty) {
            return Err(Stop::Refused(refusal));
        }
        let kept = match self.kept(ty) {
            Ok(kept) => kept,
            Err(stop) => return Err(stop),
        };
        if let Some(refusal) = self.refused_place(&kept, count, origin, len) {
            return Err(Stop::Refused(refusal));
        }
        let copies = count.unsigned_abs();
        let Some(session) = begun(self.alloc, &kept.ty, copies, rep, origin, len)? else {
            return Err(Stop::Refused(Refusal::Overlap));
        };
        if self.is_too_much(&kept.ty, rep, copies) {
            return Err(Stop::Refused(Refusal::TooLarge));
        }
        let name = name.copied()?;
        let buffer = buffer.copied()?;
        let reply = Reply::Opened(session.total());
        let opened = Opened {
            buffer,
            session: Session::Unpack(session),
        };
        let change = Change::OpenSession { name, opened };
        Ok(Outcome { reply, change })
    }

    /// Why a piece isn't given to a session.
    fn refused_piece(&self, session: &Name, piece: &[u8]) -> Option<Refusal>
        ensures { MatchOption result (IsClear (giving_row self.now session.now piece.now)) (IsFirst (giving_row self.now session.now piece.now)) }
    {
        let Some(found) = self.session(session) else {
            return Some(Refusal::UnknownName);
        };
        if found.is_packing() {
            Some(Refusal::WrongDirection)
        } else if piece.len() as u64 > found.total() - found.passed() {
            Some(Refusal::Truncated)
        } else {
            None
        }
    }

    /// `give SESSION HEX`. It takes no memory but the room for the reply's line, and that before the session moves.
    pub(crate) fn give(
        &mut self,
        session: &Name,
        piece: &[u8],
        out: &mut Vec<u8>,
    ) -> Result<bool, NoMemory>
        ensures ok { IfOk result (λ accepted. Responds (λ reply. Obeys (Give session.now piece.now) self.old reply self.new) accepted out.old.items out.new.items) }
        ensures err { OnErr result ((self.new ≡ self.old) × (out.new.items ≡ out.old.items)) }
    {
        if let Some(refusal) = self.refused_piece(session, piece) {
            return self.refuse(refusal, out);
        }
        out.reserve(RECEIPT_ROOM)?;
        let receipt = self.receive(session, piece);
        write_receipt(out, receipt);
        Ok(true)
    }
}
