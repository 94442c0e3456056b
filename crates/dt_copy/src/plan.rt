//! Plans of copies.
ghost use Rattle.std.specs.Prelude.{◌≡◌, ◌≤◌, ℤ, IsErrOf, IfErr, IfOk, IsTrue, length};
ghost use Rattle.dt_copy.specs.Copied.{copied};
ghost use Rattle.dt_copy.specs.Plan.{copy_of, AreInside, AreEnough, CanCopy, IsRefused};
ghost use Rattle.dt_copy.specs.declared.fault.CopyFault.TheVariants as CopyFault;
ghost use Rattle.dt_kinds.specs.declared.kind.Rep.TheVariants.{Native};
ghost use Rattle.dt_map.specs.Elements.{elements};
ghost use Rattle.dt_map.specs.Packed.{total};
ghost use Rattle.dt_type.specs.Datatype.{typemap_of};

use crate::copying::copy_bytes;
use crate::fault::CopyFault;
use crate::matching::first_difference;
use crate::side::Side;
use dt_elems::{overlaps, span_inside, whole_elements};
use dt_kinds::Rep;
use dt_type::Datatype;
use std::alloc::Global;
use std::marker::Model;

/// The greatest number of bytes of the buffers of a copy.
pub const BUFFER_MAX: usize = 1 << 24;

/// A copy of the elements of one operation to the places of another's, in their order. It keeps no buffer and no datatype.
#[derive(Drop)]
pub struct CopyPlan {
    source: Side,
    target: Side,
    elements: u64,
}

impl Model for CopyPlan {
    ghost use Rattle.dt_copy.specs.Plan.{Copy, IsPlan};

    ghost Value = { Copy };

    ghost view = { λ p. record { source = p.source.elements; source_len = p.source.len; target = p.target.elements; target_len = p.target.len } };

    ghost invariant = { λ p. IsPlan (record { source = p.source.elements; source_len = p.source.len; target = p.target.elements; target_len = p.target.len }) p.elements };
}

/// How many elements an operation has.
fn number_of_elements(ty: &Datatype, count: u32) -> u128
    ensures { (origin : ℤ) → result ≡ length (elements (typemap_of ty.now) count origin) }
{
    u128::from(count) * u128::from(ty.bounds().elements)
}

/// How many elements are copied, where every element lies in its buffer, no two of the target overlap and there are enough of them; else
/// why they can't be. Their kinds aren't asked.
fn enough_elements(
    alloc: Global,
    source: &Datatype,
    source_count: u32,
    source_origin: i64,
    source_len: usize,
    target: &Datatype,
    target_count: u32,
    target_origin: i64,
    target_len: usize,
) -> Result<u128, CopyFault>
    requires { target_len ≤ 16777216 }
    ensures enough { IfOk result (λ _. AreEnough (copy_of (typemap_of source.now) source_count source_origin source_len (typemap_of target.now) target_count target_origin target_len)) }
    ensures number { IfOk result (λ n. n ≡ length (elements (typemap_of source.now) source_count source_origin)) }
    ensures refused { IfErr result (IsRefused (copy_of (typemap_of source.now) source_count source_origin source_len (typemap_of target.now) target_count target_origin target_len)) }
    ensures outside { ¬ AreInside (copy_of (typemap_of source.now) source_count source_origin source_len (typemap_of target.now) target_count target_origin target_len) → IsErrOf result CopyFault.Outside }
{
    if !span_inside(source, source_count, source_origin, source_len) {
        return Err(CopyFault::Outside);
    }
    if !span_inside(target, target_count, target_origin, target_len) {
        return Err(CopyFault::Outside);
    }
    if overlaps(alloc, target, target_count, target_origin, target_len)? {
        return Err(CopyFault::Overlap);
    }
    let elements = number_of_elements(source, source_count);
    if elements > number_of_elements(target, target_count) {
        return Err(CopyFault::Longer);
    }
    Ok(elements)
}

impl CopyPlan {
    /// Plans the copy of so many copies of a datatype, the first of which begins at the origin in a buffer of `source_len` bytes, to
    /// those of another, in a buffer of `target_len` bytes; lengths are in bytes. `Outside` exactly where an element of either side lies
    /// outside its buffer; then `Overlap` where two elements of the target have a common byte, as none may that are received (MPI 4.1,
    /// section 5.1.11); then `Longer` where the source has more elements than the target; then `Differs` where the kinds of two elements
    /// of one number differ, with the first such number; and none of them elsewhere. Kinds match that are equal, and no others, which is
    /// this project's own rule. `NoMemory` where memory ran out, be it before the others are known. From then on the plan needs neither
    /// the datatypes nor memory.
    pub fn begin(
        alloc: Global,
        source: &Datatype,
        source_count: u32,
        source_origin: i64,
        source_len: usize,
        target: &Datatype,
        target_count: u32,
        target_origin: i64,
        target_len: usize,
    ) -> Result<CopyPlan, CopyFault>
        requires source { source_len ≤ 16777216 }
        requires target { target_len ≤ 16777216 }
        ensures plan { IfOk result (λ plan. plan ≡ copy_of (typemap_of source.now) source_count source_origin source_len (typemap_of target.now) target_count target_origin target_len) }
        ensures possible { IfOk result CanCopy }
        ensures refused { IfErr result (IsRefused (copy_of (typemap_of source.now) source_count source_origin source_len (typemap_of target.now) target_count target_origin target_len)) }
        ensures outside { ¬ AreInside (copy_of (typemap_of source.now) source_count source_origin source_len (typemap_of target.now) target_count target_origin target_len) → IsErrOf result CopyFault.Outside }
    {
        let elements = enough_elements(
            alloc,
            source,
            source_count,
            source_origin,
            source_len,
            target,
            target_count,
            target_origin,
            target_len,
        )?;
        let mut from = Side::new(alloc, source, source_count, source_origin, source_len)?;
        let mut to = Side::new(alloc, target, target_count, target_origin, target_len)?;
        if let Some(byte) = first_difference(&mut from, &mut to) {
            return Err(CopyFault::Differs {
                at: whole_elements(source, Rep::Native, byte),
            });
        }
        Ok(CopyPlan {
            source: from,
            target: to,
            elements: elements as u64,
        })
    }

    /// How many elements are copied, which are all of the source's.
    pub fn elements(&self) -> u64
        ensures { result ≡ length self.now.source }
    {
        self.elements
    }

    /// How many bytes these elements have in memory.
    pub fn bytes(&self) -> u64
        ensures { result ≡ total Native self.now.source }
    {
        self.source.total()
    }

    /// Copies: each element of the source, as it lies in its buffer now, is written to the place of the target's element of the same
    /// number, and no other byte of the target changes. Answers how many elements these are. The plan stays as it was, so it may be run
    /// again. It takes no memory.
    pub fn run(&mut self, source: &[u8], target: &mut [u8]) -> u64
        requires source { length source.now ≡ self.old.source_len }
        requires target { length target.old ≡ self.old.target_len }
        ensures bytes { target.new ≡ copied self.old.source self.old.target source.now target.old }
        ensures elements { result ≡ length self.old.source }
        ensures again { self.new ≡ self.old }
    {
        self.source.rewind();
        self.target.rewind();
        copy_bytes(&mut self.source, source, &mut self.target, target);
        self.elements
    }
}
