//! Commands that ask, and change nothing: `info TYPE`, `map TYPE`, `envelope TYPE`, `contents TYPE`,
//! `show BUFFER`, `elements REP BYTES TYPE`.
ghost use Rattle.dt_machine.specs.Outcome.{ComesTo};
ghost use Rattle.dt_script.specs.declared.command.Command.TheVariants.{Contents, Elements, Envelope, Info, Map, Show};

use crate::limits::MOST_ENTRIES;
use crate::machine::Machine;
use crate::outcome::{Outcome, told};
use dt_elems::{whole_copies, whole_elements};
use dt_kinds::Rep;
use dt_names::Stop;
use dt_reply::{Refusal, Reply};
use dt_script::{Bytes, Name};
use dt_type::{ContentsFault, FlattenFault};

impl Machine {
    /// `info TYPE`
    pub(crate) fn info(&self, ty: &Name) -> Result<Outcome, Stop>
        ensures { ComesTo self.now (Info ty.now) result }
    {
        let kept = match self.kept(ty) {
            Ok(kept) => kept,
            Err(stop) => return Err(stop),
        };
        Ok(told(Reply::Told(kept.ty.bounds(), kept.committed)))
    }

    /// `map TYPE`
    pub(crate) fn map(&self, ty: &Name) -> Result<Outcome, Stop>
        ensures { ComesTo self.now (Map ty.now) result }
    {
        let kept = match self.kept(ty) {
            Ok(kept) => kept,
            Err(stop) => return Err(stop),
        };
        let map = match kept.ty.flatten(self.alloc, MOST_ENTRIES) {
            Ok(map) => map,
            Err(FlattenFault::TooMany) => return Err(Stop::Refused(Refusal::TooManyEntries)),
            Err(FlattenFault::NoMemory) => return Err(Stop::NoMemory),
        };
        Ok(told(Reply::Listed(map)))
    }

    /// `envelope TYPE`
    pub(crate) fn envelope(&self, ty: &Name) -> Result<Outcome, Stop>
        ensures { ComesTo self.now (Envelope ty.now) result }
    {
        let kept = match self.kept(ty) {
            Ok(kept) => kept,
            Err(stop) => return Err(stop),
        };
        Ok(told(Reply::Described(kept.ty.envelope())))
    }

    /// `contents TYPE`
    pub(crate) fn contents(&self, ty: &Name) -> Result<Outcome, Stop>
        ensures { ComesTo self.now (Contents ty.now) result }
    {
        let kept = match self.kept(ty) {
            Ok(kept) => kept,
            Err(stop) => return Err(stop),
        };
        let contents = match kept.ty.contents(self.alloc) {
            Ok(contents) => contents,
            Err(ContentsFault::Named) => return Err(Stop::Refused(Refusal::NamedType)),
            Err(ContentsFault::NoMemory) => return Err(Stop::NoMemory),
        };
        Ok(told(Reply::Contained(contents)))
    }

    /// `elements REP BYTES TYPE`
    pub(crate) fn counts(&self, rep: Rep, bytes: i64, ty: &Name) -> Result<Outcome, Stop>
        ensures { ComesTo self.now (Elements rep bytes ty.now) result }
    {
        let kept = match self.kept(ty) {
            Ok(kept) => kept,
            Err(stop) => return Err(stop),
        };
        if bytes < 0 {
            return Err(Stop::Refused(Refusal::BadArgument));
        }
        let bytes = bytes.unsigned_abs();
        let elements = whole_elements(&kept.ty, rep, bytes);
        let copies = whole_copies(&kept.ty, rep, bytes);
        Ok(told(Reply::Counted { elements, copies }))
    }

    /// `show BUFFER`
    pub(crate) fn show(&self, buffer: &Name) -> Result<Outcome, Stop>
        ensures { ComesTo self.now (Show buffer.now) result }
    {
        let Some(bytes) = self.buffer(buffer) else {
            return Err(Stop::Refused(Refusal::UnknownName));
        };
        let bytes = Vec::from_slice(self.alloc, bytes)?;
        Ok(told(Reply::Shown(Bytes::from_vec(bytes))))
    }
}
