//! The ranks of a reduction.
ghost use Rattle.std.specs.Prelude.{◌≡◌, ◌+◌, ◌^◌, ◌<◌, ◌≤◌, ◌↔◌, IsTrue, IfErr, IfOk, pos, length};
ghost use Rattle.dt_kinds.specs.declared.kind.Rep.TheVariants.{Native};
ghost use Rattle.dt_map.specs.Elements.{Overlaps};
ghost use Rattle.dt_map.specs.Packed.{total};
ghost use Rattle.dt_reduce.specs.Folded.{kinds_of, joined_row, folded_bytes};
ghost use Rattle.dt_reduce.specs.Kept.{rows_of, ArePackedRows, IsNoTarget};
ghost use Rattle.dt_reduce.specs.Merges.{Bracket, merged};
ghost use Rattle.dt_reduce.specs.Ranks.{without_ranks, elements_at, with_rank, bytes_of, AreInside, CanAdd, IsNotAdded};
ghost use Rattle.dt_type.specs.Datatype.{typemap_of};
ghost use Rattle.dt_unpack.specs.Session.{opened, placed};

use crate::fault::{AllFault, RanksFault};
use crate::pairs::Pairs;
use dt_elems::{packed_size, span_inside};
use dt_kinds::{NoMemory, Rep};
use dt_ops::{Call, Law, StoredOp};
use dt_pack::packed_bytes;
use dt_type::Datatype;
use dt_unpack::{UnpackFault, UnpackSession};
use std::alloc::Global;
use std::marker::Model;

/// The greatest number of ranks.
pub const RANKS_MAX: usize = 1024;

/// The greatest number of bytes that the elements of all ranks may have together.
pub const BYTES_MAX: usize = 1 << 24;

/// The elements of several ranks, each as they were when the rank was added. All have one datatype, which is shared, and one count.
#[derive(Drop)]
pub struct Ranks {
    alloc: Global,
    ty: Datatype,
    count: u32,
    rows: Vec<Vec<u8>>,
}

impl Model for Ranks {
    ghost use Rattle.dt_reduce.specs.Ranks.{Ranked};
    ghost use Rattle.dt_reduce.specs.Kept.{ranked_of, AreKept};
    ghost use Rattle.dt_type.specs.Datatype.{typemap_of};

    ghost Value = { Ranked };

    ghost view = { λ r. ranked_of (typemap_of r.ty) r.count r.rows.items };

    ghost invariant = { λ r. AreKept (ranked_of (typemap_of r.ty) r.count r.rows.items) r.rows.items };
}

impl Ranks {
    /// No ranks yet, for the elements of so many copies of a datatype. It shares the datatype.
    pub fn new(alloc: Global, ty: &Datatype, count: u32) -> Result<Ranks, NoMemory>
        ensures { IfOk result (λ ranks. ranks ≡ without_ranks (typemap_of ty.now) count) }
    {
        Ok(Ranks {
            alloc,
            ty: ty.share()?,
            count,
            rows: Vec::new(alloc),
        })
    }

    /// How many ranks there are.
    pub fn len(&self) -> usize
        ensures value { result ≡ length self.now.rows }
        ensures few { result ≤ 1024 }
    {
        self.rows.len()
    }

    /// Whether one rank more would have too many bytes.
    fn is_too_large(&self) -> bool
        ensures { IsTrue result ↔ (16777216 < bytes_of self.now (length self.now.rows + 1)) }
    {
        let number = self.rows.len() as u128 + 1;
        packed_size(&self.ty, Rep::Native, self.count).saturating_mul(number) > BYTES_MAX as u128
    }

    /// Adds a rank: the words of the elements in a buffer as they are now, where the operation begins at an origin. `Outside` where an
    /// element lies outside the buffer (MPI 4.1, section 5.1.11); then `Full` where 1,024 ranks stand; then `TooLarge` where the bytes of
    /// the elements of all ranks, this one among them, would be more than 16 MiB; each exactly there. `NoMemory` where memory ran out.
    /// After a refusal the ranks are as before.
    pub fn add(&mut self, origin: i64, buf: &[u8]) -> Result<(), RanksFault>
        requires { length buf.now ≤ 16777216 }
        ensures added { IfOk result (λ _. self.new ≡ with_rank self.old origin buf.now) }
        ensures possible { IfOk result (λ _. CanAdd self.old origin (length buf.now)) }
        ensures refused { IfErr result (IsNotAdded self.old origin (length buf.now)) }
        ensures unchanged { IfErr result (λ _. self.new ≡ self.old) }
    {
        if !span_inside(&self.ty, self.count, origin, buf.len()) {
            return Err(RanksFault::Outside);
        }
        if self.rows.len() == RANKS_MAX {
            return Err(RanksFault::Full);
        }
        if self.is_too_large() {
            return Err(RanksFault::TooLarge);
        }
        let row = packed_bytes(self.alloc, &self.ty, Rep::Native, self.count, origin, buf)?;
        self.rows.push(row)?;
        Ok(())
    }

    /// A session that sets the elements of a buffer, where the operation begins at an origin.
    pub(crate) fn target(
        &self,
        alloc: Global,
        origin: i64,
        len: usize,
    ) -> Result<UnpackSession, AllFault>
        requires { len ≤ 16777216 }
        ensures session { IfOk result (λ session. session ≡ opened self.now.typemap self.now.count Native origin len) }
        ensures placed { IfOk result (λ session. placed session ≡ elements_at self.now origin) }
        ensures possible { IfOk result (λ _. AreInside self.now origin len × ¬ Overlaps (elements_at self.now origin)) }
        ensures refused { IfErr result (IsNoTarget self.now origin len) }
    {
        match UnpackSession::begin(alloc, &self.ty, self.count, Rep::Native, origin, len) {
            Ok(session) => Ok(session),
            Err(UnpackFault::Outside) => Err(AllFault::Outside),
            Err(UnpackFault::Overlap) => Err(AllFault::Overlap),
            Err(UnpackFault::NoMemory) => Err(AllFault::NoMemory),
        }
    }

    /// The elements by pairs, to be joined. They lie in a buffer, and don't overlap there.
    pub(crate) fn pairs(&self, alloc: Global, origin: i64, len: usize) -> Result<Pairs, NoMemory>
        requires small { len ≤ 16777216 }
        requires inside { AreInside self.now origin len }
        requires apart { ¬ Overlaps (elements_at self.now origin) }
        ensures { IfOk result (λ pairs. pairs.elements ≡ elements_at self.now (pos 0)) }
    {
        Pairs::new(alloc, &self.ty, self.count, origin, len, origin, len)
    }

    /// Joins all ranks, neighbours in the sequence of the merges, and answers the bytes of the row that is left. Then there are no ranks.
    pub(crate) fn join_all<L: Law, F: Call>(
        &mut self,
        op: &StoredOp<L, F>,
        pairs: &mut Pairs,
        merges: &[u32],
    ) -> Vec<u8>
        requires bracket { Bracket (length self.old.rows) merges.now }
        requires elements { pairs.old.elements ≡ elements_at self.old (pos 0) }
        ensures spent { self.new ≡ without_ranks self.old.typemap self.old.count }
        ensures row { result.items ≡ folded_bytes L.join (elements_at self.old (pos 0)) self.old.rows }
        ensures all { length result.items ≡ total Native (elements_at self.old (pos 0)) }
    {
        L::holds();
        merge_rows(op, pairs, &mut self.rows, merges);
        match self.rows.pop() {
            Some(row) => row,
            None => unreachable!(),
        }
    }
}

/// Joins rows of packed bytes, neighbours in the sequence of the merges.
fn merge_rows<L: Law, F: Call>(
    op: &StoredOp<L, F>,
    pairs: &mut Pairs,
    rows: &mut Vec<Vec<u8>>,
    merges: &[u32],
)
    requires bracket { Bracket (length rows.old.items) merges.now }
    requires packed { ArePackedRows pairs.old.elements rows.old.items }
    requires near { total Native pairs.old.elements < 2 ^ 63 }
    ensures rows { rows_of (kinds_of pairs.old.elements) rows.new.items ≡ merged (joined_row L.join (kinds_of pairs.old.elements)) merges.now (rows_of (kinds_of pairs.old.elements) rows.old.items) }
    ensures packed { ArePackedRows pairs.old.elements rows.new.items }
{
    L::holds();
    'merges: for merge in merges {
        let place = *merge as usize;
        let first = rows.remove(place);
        pairs.join_packed(op, &first, &mut rows[place]);
    }
}
