//! How many elements and copies received bytes are (MPI 4.1, sections 3.2.5 and 5.1.11).
ghost use Rattle.std.specs.Prelude.{◌≡◌, ◌≤◌, Some, MatchResult};
ghost use Rattle.dt_space.specs.Space.{type_at};
ghost use Rattle.dt_numbered.specs.Counts.{number_or_undefined, AreElements, AreCopies, IsUncounted};

use dt_elems::{whole_copies, whole_elements};
use dt_kinds::Rep;
use dt_space::{Space, SpaceFault, TypeNumber};
use dt_type::Datatype;
use std::alloc::Global;

/// The number that stands for no number: received bytes that aren't whole copies have it, as `MPI_UNDEFINED`.
pub const UNDEFINED: u64 = u64::MAX;

/// The greatest number of received bytes.
const BYTES_MAX: u64 = 9_223_372_036_854_775_807;

/// The datatype of a number, where the bytes aren't too many.
fn counted(
    space: &Space,
    alloc: Global,
    number: TypeNumber,
    bytes: u64,
) -> Result<Datatype, SpaceFault>
    ensures { MatchResult result (λ t. (type_at space.now number ≡ Some t) × (bytes ≤ 9223372036854775807)) (IsUncounted space.now number bytes) }
{
    let kept = space.kept(alloc, number)?;
    if bytes > BYTES_MAX {
        return Err(SpaceFault::BadArgument);
    }
    Ok(kept.ty)
}

/// A number, or the one that stands for none.
fn or_undefined(count: Option<u64>) -> u64
    ensures { result ≡ number_or_undefined count }
{
    match count {
        Some(count) => count,
        None => UNDEFINED,
    }
}

/// `MPI_Get_elements`: how many elements of a datatype received bytes complete. `NoSuchType` exactly where the number stands for nothing,
/// then `BadArgument` exactly where there are more than 2^63 - 1 bytes.
pub fn received_elements(
    space: &Space,
    alloc: Global,
    number: TypeNumber,
    rep: Rep,
    bytes: u64,
) -> Result<u64, SpaceFault>
    ensures { MatchResult result (AreElements space.now number rep bytes) (IsUncounted space.now number bytes) }
{
    let ty = counted(space, alloc, number, bytes)?;
    Ok(whole_elements(&ty, rep, bytes))
}

/// `MPI_Get_count`: how many copies of a datatype received bytes are, or `UNDEFINED` where they aren't whole copies. Refused as
/// `received_elements` is.
pub fn received_copies(
    space: &Space,
    alloc: Global,
    number: TypeNumber,
    rep: Rep,
    bytes: u64,
) -> Result<u64, SpaceFault>
    ensures { MatchResult result (AreCopies space.now number rep bytes) (IsUncounted space.now number bytes) }
{
    let ty = counted(space, alloc, number, bytes)?;
    Ok(or_undefined(whole_copies(&ty, rep, bytes)))
}
