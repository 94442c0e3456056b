//! Commands on sessions: `pack SESSION REP COUNT TYPE BUFFER ORIGIN`, `take SESSION LENGTH`, `seek SESSION BYTE`, `close SESSION`.
ghost use Rattle.std.specs.Prelude.{◌≡◌, ◌↔◌, ◌≤◌, ◌<◌, ◌+◌, ◌-◌, ◌⊎◌, ℤ, pos, nat_abs, int_lt, min, IsTrue, IfOk, MatchOption, MatchResult, Some, None};
ghost use Rattle.std.specs.Option.{IsSomeAnd};
ghost use Rattle.dt_map.specs.Elements.{elements, are_inside};
ghost use Rattle.dt_map.specs.Packed.{total};
ghost use Rattle.dt_names.specs.declared.kept.Kept.{Kept as KeptValue};
ghost use Rattle.dt_pack.specs.Session as pack;
ghost use Rattle.dt_sessions.specs.Open.{total_in, passed_in, rest_in};
ghost use Rattle.dt_machine.specs.Operation.{session_names_row, place_row, opening_row};
ghost use Rattle.dt_machine.specs.Outcome.{ComesTo};
ghost use Rattle.dt_machine.specs.Refusal.{IsTooMuch, IsBeyond};
ghost use Rattle.dt_machine.specs.Row.{IsFirst, IsClear};
ghost use Rattle.dt_machine.specs.State.{session_of};
ghost use Rattle.dt_script.specs.declared.command.Command.TheVariants.{Close, Pack, Seek, Take};
ghost use Rattle.dt_type.specs.Datatype.{typemap_of};

use crate::limits::{MOST_OPEN, MOST_SESSIONS};
use crate::machine::Machine;
use crate::outcome::{Change, Outcome, done};
use dt_elems::{packed_size, span_inside};
use dt_kinds::{NoMemory, Rep};
use dt_names::{Kept, Stop, is_left_out};
use dt_pack::{PackFault, PackSession};
use dt_reply::{Refusal, Reply};
use dt_script::Name;
use dt_sessions::{Opened, Session};
use dt_type::Datatype;
use std::alloc::Global;

/// A pack session, as it is opened.
fn begun(
    alloc: Global,
    ty: &Datatype,
    copies: u32,
    rep: Rep,
    origin: i64,
    len: usize,
) -> Result<PackSession, NoMemory>
    requires small { len ≤ 16777216 }
    requires inside { IsTrue (are_inside len (elements (typemap_of ty.now) copies origin)) }
    requires few { total rep (elements (typemap_of ty.now) copies origin) ≤ 16777216 }
    ensures { IfOk result (λ s. s ≡ pack.opened (typemap_of ty.now) copies rep origin len) }
{
    match PackSession::begin(alloc, ty, copies, rep, origin, len) {
        Ok(session) => Ok(session),
        Err(PackFault::Outside) => unreachable!(),
        Err(PackFault::TooLarge) => unreachable!(),
        Err(PackFault::NoMemory) => Err(NoMemory),
    }
}

/// How many packed bytes are taken, where so many are asked for, and where the session stands behind them.
fn taken_of(session: &Session, len: u32) -> (u64, u64)
    ensures count { result.0 ≡ min len (rest_in session.now) }
    ensures byte { result.1 ≡ passed_in session.now + min len (rest_in session.now) }
    ensures within { result.1 ≤ total_in session.now }
{
    let passed = session.passed();
    let rest = session.total() - passed;
    let count = u64::from(len).min(rest);
    (count, passed + count)
}

impl Machine {
    /// Why no session is opened over a buffer that stands, by the names alone.
    pub(crate) fn refused_session(&self, name: &Name, ty: &Name) -> Option<Refusal>
        ensures { MatchOption result (IsClear (session_names_row self.now name.now ty.now)) (IsFirst (session_names_row self.now name.now ty.now)) }
    {
        if self.is_unknown(ty) {
            Some(Refusal::UnknownName)
        } else if self.is_session_taken(name) {
            Some(Refusal::NameTaken)
        } else if is_left_out(ty) {
            Some(Refusal::UnsupportedKind)
        } else {
            None
        }
    }

    /// Whether the packed bytes of an operation and of all open sessions are too many.
    pub(crate) fn is_too_much(&self, ty: &Datatype, rep: Rep, copies: u32) -> bool
        ensures { (kept : KeptValue) (count origin : ℤ) → ty.now ≡ kept.ty → copies ≡ nat_abs count → IsTrue result ↔ IsTooMuch self.now rep count origin kept }
    {
        let open = self.packed_open();
        open > MOST_OPEN || packed_size(ty, rep, copies) > u128::from(MOST_OPEN - open)
    }

    /// Why no session is opened, by the type, the numbers and the length of the buffer.
    pub(crate) fn refused_place(
        &self,
        kept: &Kept,
        count: i32,
        origin: i64,
        len: usize,
    ) -> Option<Refusal>
        ensures { MatchOption result (IsClear (place_row self.now kept.now count origin len)) (IsFirst (place_row self.now kept.now count origin len)) }
    {
        if !kept.committed {
            return Some(Refusal::NotCommitted);
        }
        if count < 0 {
            return Some(Refusal::BadArgument);
        }
        if self.count_of_sessions() >= MOST_SESSIONS {
            Some(Refusal::TooManyNames)
        } else if !span_inside(&kept.ty, count.unsigned_abs(), origin, len) {
            Some(Refusal::Outside)
        } else {
            None
        }
    }

    /// Why no pack session is opened, by its place and by the packed bytes of all sessions.
    fn refused_opening(
        &self,
        kept: &Kept,
        rep: Rep,
        count: i32,
        origin: i64,
        len: usize,
    ) -> Option<Refusal>
        ensures { MatchOption result (IsClear (opening_row self.now kept.now rep count origin len)) (IsFirst (opening_row self.now kept.now rep count origin len)) }
    {
        if let Some(refusal) = self.refused_place(kept, count, origin, len) {
            Some(refusal)
        } else if self.is_too_much(&kept.ty, rep, count.unsigned_abs()) {
            Some(Refusal::TooLarge)
        } else {
            None
        }
    }

    /// `pack SESSION REP COUNT TYPE BUFFER ORIGIN`
    pub(crate) fn pack(
        &self,
        name: &Name,
        rep: Rep,
        count: i32,
        ty: &Name,
        buffer: &Name,
        origin: i64,
    ) -> Result<Outcome, Stop>
        ensures { ComesTo self.now (Pack name.now rep count ty.now buffer.now origin) result }
    {
        let Some(len) = self.buffer_len(buffer) else {
            return Err(Stop::Refused(Refusal::UnknownName));
        };
        if let Some(refusal) = self.refused_session(name, ty) {
            return Err(Stop::Refused(refusal));
        }
        let kept = match self.kept(ty) {
            Ok(kept) => kept,
            Err(stop) => return Err(stop),
        };
        if let Some(refusal) = self.refused_opening(&kept, rep, count, origin, len) {
            return Err(Stop::Refused(refusal));
        }
        let name = name.copied()?;
        let buffer = buffer.copied()?;
        let session = begun(self.alloc, &kept.ty, count.unsigned_abs(), rep, origin, len)?;
        let reply = Reply::Opened(session.total());
        let opened = Opened {
            buffer,
            session: Session::Pack(session),
        };
        let change = Change::OpenSession { name, opened };
        Ok(Outcome { reply, change })
    }

    /// `take SESSION LENGTH`
    pub(crate) fn take(&mut self, session: &Name, len: i32) -> Result<Outcome, Stop>
        ensures same { self.new ≡ self.old }
        ensures outcome { ComesTo self.old (Take session.now len) result }
    {
        let Some(found) = self.session(session) else {
            return Err(Stop::Refused(Refusal::UnknownName));
        };
        if len < 0 {
            return Err(Stop::Refused(Refusal::BadArgument));
        }
        if !found.is_packing() {
            return Err(Stop::Refused(Refusal::WrongDirection));
        }
        let (count, byte) = taken_of(found, len.unsigned_abs());
        let name = session.copied()?;
        let reply = Reply::Packed(self.next_bytes(session, count as usize)?);
        let change = Change::TakeBytes { name, byte, count };
        Ok(Outcome { reply, change })
    }

    /// `seek SESSION BYTE`
    pub(crate) fn seek(&self, session: &Name, byte: i64) -> Result<Outcome, Stop>
        ensures { ComesTo self.now (Seek session.now byte) result }
    {
        let Some(found) = self.session(session) else {
            return Err(Stop::Refused(Refusal::UnknownName));
        };
        if byte < 0 || byte.unsigned_abs() > found.total() {
            return Err(Stop::Refused(Refusal::BadArgument));
        }
        if !found.is_packing() {
            return Err(Stop::Refused(Refusal::WrongDirection));
        }
        let name = session.copied()?;
        let byte = byte.unsigned_abs();
        Ok(done(Change::SeekSession { name, byte }))
    }

    /// `close SESSION`
    pub(crate) fn close(&self, session: &Name) -> Result<Outcome, Stop>
        ensures { ComesTo self.now (Close session.now) result }
    {
        let Some(found) = self.session(session) else {
            return Err(Stop::Refused(Refusal::UnknownName));
        };
        let reply = Reply::Closed {
            passed: found.passed(),
            all: found.total(),
        };
        let name = session.copied()?;
        let change = Change::CloseSession { name };
        Ok(Outcome { reply, change })
    }
}
