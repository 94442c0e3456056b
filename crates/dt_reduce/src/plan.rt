//! Plans of reductions.
ghost use Rattle.std.specs.Prelude.{◌≡◌, ◌≤◌, IsErrOf, IfErr, IfOk, length};
ghost use Rattle.dt_reduce.specs.Plan.{reduction_of, AreInside, CanReduce, IsRefused};
ghost use Rattle.dt_reduce.specs.Reduced.{reduced};
ghost use Rattle.dt_reduce.specs.declared.fault.ReduceFault.TheVariants as ReduceFault;
ghost use Rattle.dt_type.specs.Datatype.{typemap_of};

use crate::fault::ReduceFault;
use crate::pairs::Pairs;
use dt_elems::{overlaps, span_inside};
use dt_ops::{Call, Law, StoredOp};
use dt_type::Datatype;
use std::alloc::Global;
use std::marker::Model;

/// The greatest number of bytes of the buffers of a reduction.
pub const BUFFER_MAX: usize = 1 << 24;

/// A reduction of an operation's elements in one buffer, the target, by those in another, the source. It keeps no buffer and no
/// datatype.
#[derive(Drop)]
pub struct ReducePlan {
    pairs: Pairs,
}

impl Model for ReducePlan {
    ghost use Rattle.dt_reduce.specs.Paired.{source_of, target_of};
    ghost use Rattle.dt_reduce.specs.Plan.{Reduction};

    ghost Value = { Reduction };

    ghost view = { λ p. record { source = source_of p.pairs; source_len = p.pairs.source_len; target = target_of p.pairs; target_len = p.pairs.target_len } };
}

impl ReducePlan {
    /// Plans the reduction of so many copies of a datatype, which begin at one origin in a source of `source_len` bytes, and at another
    /// in a target of `target_len` bytes; origins and lengths are in bytes. `Outside` exactly where an element of either side lies
    /// outside its buffer (MPI 4.1, section 5.1.11); then `Overlap` where two elements have a common byte, and nowhere else; `NoMemory`
    /// where memory ran out, be it before overlap is known. From then on the plan needs neither the datatype nor memory.
    pub fn begin(
        alloc: Global,
        ty: &Datatype,
        count: u32,
        source_origin: i64,
        source_len: usize,
        target_origin: i64,
        target_len: usize,
    ) -> Result<ReducePlan, ReduceFault>
        requires source { source_len ≤ 16777216 }
        requires target { target_len ≤ 16777216 }
        ensures plan { IfOk result (λ plan. plan ≡ reduction_of (typemap_of ty.now) count source_origin source_len target_origin target_len) }
        ensures possible { IfOk result CanReduce }
        ensures refused { IfErr result (IsRefused (reduction_of (typemap_of ty.now) count source_origin source_len target_origin target_len)) }
        ensures outside { ¬ AreInside (reduction_of (typemap_of ty.now) count source_origin source_len target_origin target_len) → IsErrOf result ReduceFault.Outside }
    {
        if !span_inside(ty, count, source_origin, source_len)
            || !span_inside(ty, count, target_origin, target_len)
        {
            return Err(ReduceFault::Outside);
        }
        if overlaps(alloc, ty, count, target_origin, target_len)? {
            return Err(ReduceFault::Overlap);
        }
        let pairs = Pairs::new(
            alloc,
            ty,
            count,
            source_origin,
            source_len,
            target_origin,
            target_len,
        )?;
        Ok(ReducePlan { pairs })
    }

    /// Reduces: the word of each element of the target becomes what the source's word of the same number and it are joined to, the
    /// source's first, as both buffers are now; no other byte of the target changes (MPI 4.1, section 6.9). Answers how many elements
    /// these are. The plan stays as it was, so it may be run again. It takes no memory.
    pub fn run<L: Law, F: Call>(
        &mut self,
        op: &StoredOp<L, F>,
        source: &[u8],
        target: &mut [u8],
    ) -> u64
        requires source { length source.now ≡ self.old.source_len }
        requires target { length target.old ≡ self.old.target_len }
        ensures bytes { target.new ≡ reduced L.join self.old.source self.old.target source.now target.old }
        ensures elements { result ≡ length self.old.target }
        ensures again { self.new ≡ self.old }
    {
        self.pairs.join_all(op, source, target);
        self.pairs.done()
    }
}
