//! Reduction of all ranks.
ghost use Rattle.std.specs.Prelude.{◌≡◌, ◌≤◌, [], IfErr, IfOk, length};
ghost use Rattle.dt_kinds.specs.declared.kind.Rep.TheVariants.{Native};
ghost use Rattle.dt_map.specs.Setting.{set_each};
ghost use Rattle.dt_reduce.specs.Folded.{folded};
ghost use Rattle.dt_reduce.specs.Ranks.{without_ranks, elements_at, CanReduceAll, AreNotReduced};
ghost use Rattle.dt_unpack.specs.Session.{total_of, placed};

use crate::fault::AllFault;
use crate::merges::bad_merge;
use crate::ranks::Ranks;
use dt_ops::{Call, Law, StoredOp};
use dt_unpack::UnpackSession;
use std::alloc::Global;

/// Sets all elements of a buffer to packed bytes, and answers how many these are.
fn set_all(session: &mut UnpackSession, packed: &[u8], into: &mut [u8]) -> u64
    requires native { session.old.rep ≡ Native }
    requires start { (session.old.given ≡ 0) × (session.old.held ≡ []) }
    requires buffer { length into.old ≡ session.old.buf_len }
    requires all { length packed.now ≡ total_of session.old }
    ensures bytes { into.new ≡ set_each Native (placed session.old) into.old packed.now }
    ensures number { result ≡ length session.old.elements }
{
    match session.give(into, packed) {
        Ok(given) => given.elements,
        Err(_) => unreachable!(),
    }
}

/// Reduces all ranks by any stored operation: the word of each element in `into`, where the operation begins at `origin`, becomes what the
/// ranks' words of the same number are joined to, in the order in which the ranks were added; no other byte of `into` changes (MPI 4.1,
/// section 6.9). Neighbours are joined in the sequence of the merges, each of which joins the row at its place with the next one; the
/// answer is the same for every sequence. Answers how many elements these are; then there are no ranks. `Empty` where there are none;
/// then `BadMerge` where the merges don't bracket the ranks, with the place at which that shows; then `Outside` where an element lies
/// outside `into`; each exactly there. Then `Overlap` where two elements have a common byte, and nowhere else; `NoMemory` where memory ran
/// out, be it before overlap is known. After a refusal `ranks` and `into` are as before.
pub fn reduce_all<L: Law, F: Call>(
    alloc: Global,
    op: &StoredOp<L, F>,
    ranks: &mut Ranks,
    merges: &[u32],
    origin: i64,
    into: &mut [u8],
) -> Result<u64, AllFault>
    requires { length into.old ≤ 16777216 }
    ensures bytes { IfOk result (λ _. into.new ≡ folded L.join (elements_at ranks.old origin) ranks.old.rows into.old) }
    ensures elements { IfOk result (λ number. number ≡ length (elements_at ranks.old origin)) }
    ensures spent { IfOk result (λ _. ranks.new ≡ without_ranks ranks.old.typemap ranks.old.count) }
    ensures possible { IfOk result (λ _. CanReduceAll ranks.old merges.now origin (length into.old)) }
    ensures refused { IfErr result (AreNotReduced ranks.old merges.now origin (length into.old)) }
    ensures unchanged { IfErr result (λ _. (ranks.new ≡ ranks.old) × (into.new ≡ into.old)) }
{
    let len = ranks.len();
    if len == 0 {
        return Err(AllFault::Empty);
    }
    if let Some(at) = bad_merge(merges, len) {
        return Err(AllFault::BadMerge { at });
    }
    let mut session = ranks.target(alloc, origin, into.len())?;
    let mut pairs = ranks.pairs(alloc, origin, into.len())?;
    let row = ranks.join_all(op, &mut pairs, merges);
    Ok(set_all(&mut session, &row, into))
}
