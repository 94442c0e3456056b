//! All packed bytes of an operation at once.
ghost use Rattle.std.specs.Prelude.{◌≡◌, ◌≤◌, IsTrue, IfOk, length};
ghost use Rattle.dt_map.specs.Elements.{elements, are_inside};
ghost use Rattle.dt_map.specs.Packed.{packed, total};
ghost use Rattle.dt_pack.specs.Session.{placed};
ghost use Rattle.dt_type.specs.Datatype.{typemap_of};

use crate::fault::PackFault;
use crate::session::PackSession;
use dt_kinds::{NoMemory, Rep};
use dt_type::Datatype;
use std::alloc::Global;

/// All packed bytes of a session that has just begun.
fn take_whole(alloc: Global, session: &mut PackSession, buffer: &[u8]) -> Result<Vec<u8>, NoMemory>
    requires buffer { length buffer.now ≡ session.old.buf_len }
    requires start { session.old.position ≡ 0 }
    requires inside { IsTrue (are_inside (length buffer.now) (placed session.old)) }
    ensures { IfOk result (λ bytes. bytes.items ≡ packed session.old.rep (placed session.old) buffer.now) }
{
    let mut bytes = vec![in alloc; 0_u8; session.total() as usize]?;
    session.take(buffer, &mut bytes);
    Ok(bytes)
}

/// The packed bytes of an operation in a representation: the images of all its elements, joined in their order (MPI 4.1, sections 5.2
/// and 14.5.2). The elements lie inside the buffer, as `span_inside` of dt_elems tells; the buffer has at most 16 MiB, and so have the
/// packed bytes. `NoMemory` where memory ran out.
pub fn packed_bytes(
    alloc: Global,
    ty: &Datatype,
    rep: Rep,
    count: u32,
    origin: i64,
    buffer: &[u8],
) -> Result<Vec<u8>, NoMemory>
    requires small { length buffer.now ≤ 16777216 }
    requires inside { IsTrue (are_inside (length buffer.now) (elements (typemap_of ty.now) count origin)) }
    requires few { total rep (elements (typemap_of ty.now) count origin) ≤ 16777216 }
    ensures { IfOk result (λ bytes. bytes.items ≡ packed rep (elements (typemap_of ty.now) count origin) buffer.now) }
{
    match PackSession::begin(alloc, ty, count, rep, origin, buffer.len()) {
        Ok(mut session) => take_whole(alloc, &mut session, buffer),
        Err(PackFault::NoMemory) => Err(NoMemory),
        Err(_) => unreachable!(),
    }
}
