//! `bytes REP COUNT TYPE BUFFER ORIGIN`
ghost use Rattle.std.specs.Prelude.{MatchOption};
ghost use Rattle.dt_machine.specs.Operation.{operation_row};
ghost use Rattle.dt_machine.specs.Outcome.{ComesTo};
ghost use Rattle.dt_machine.specs.Row.{IsFirst, IsClear};
ghost use Rattle.dt_script.specs.declared.command.Command.TheVariants.{Bytes as BytesCommand};

use crate::limits::MOST_PACKED;
use crate::machine::Machine;
use crate::outcome::{Outcome, told};
use dt_elems::{packed_size, span_inside};
use dt_kinds::Rep;
use dt_names::Stop;
use dt_pack::packed_bytes;
use dt_reply::{Refusal, Reply};
use dt_script::{Bytes, Name};
use dt_type::Datatype;

/// Why the packed bytes of an operation aren't printed, by its numbers, its type and the length of its buffer.
fn refused_operation(
    rep: Rep,
    count: i32,
    ty: &Datatype,
    len: usize,
    origin: i64,
) -> Option<Refusal>
    ensures { MatchOption result (IsClear (operation_row rep count ty.now len origin)) (IsFirst (operation_row rep count ty.now len origin)) }
{
    if count < 0 {
        return Some(Refusal::BadArgument);
    }
    let copies = count.unsigned_abs();
    if !span_inside(ty, copies, origin, len) {
        Some(Refusal::Outside)
    } else if packed_size(ty, rep, copies) > MOST_PACKED {
        Some(Refusal::TooLarge)
    } else {
        None
    }
}

impl Machine {
    /// `bytes REP COUNT TYPE BUFFER ORIGIN`
    pub(crate) fn bytes(
        &self,
        rep: Rep,
        count: i32,
        ty: &Name,
        buffer: &Name,
        origin: i64,
    ) -> Result<Outcome, Stop>
        ensures { ComesTo self.now (BytesCommand rep count ty.now buffer.now origin) result }
    {
        let Some(buffer) = self.buffer(buffer) else {
            return Err(Stop::Refused(Refusal::UnknownName));
        };
        let kept = match self.kept(ty) {
            Ok(kept) => kept,
            Err(stop) => return Err(stop),
        };
        if let Some(refusal) = refused_operation(rep, count, &kept.ty, buffer.len(), origin) {
            return Err(Stop::Refused(refusal));
        }
        let copies = count.unsigned_abs();
        let bytes = packed_bytes(self.alloc, &kept.ty, rep, copies, origin, buffer)?;
        Ok(told(Reply::Packed(Bytes::from_vec(bytes))))
    }
}
