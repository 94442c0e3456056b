//! Exact tests on all elements of an operation, without a list of them.
ghost use Rattle.std.specs.Prelude.{◌≡◌, ◌<◌, ◌+◌, ◌↔◌, ℤ, pos, int_le, ◌&&◌, IsTrue, length};
ghost use Rattle.dt_map.specs.Elements.{elements, are_inside};
ghost use Rattle.dt_map.specs.Packed.{total};
ghost use Rattle.dt_type.specs.Datatype.{typemap_of, entries_of};

use crate::place::copy_at;
use dt_kinds::Rep;
use dt_type::Datatype;

/// Whether an operation has elements at all.
pub(crate) fn has_elements(ty: &Datatype, count: u32) -> bool
    ensures { IsTrue result ↔ (0 < count) × (0 < length (entries_of ty.now)) }
{
    count > 0 && ty.bounds().elements > 0
}

/// Whether a range lies in a buffer of so many bytes.
fn lies_within(low: i128, high: i128, len: usize) -> bool
    ensures { result ≡ (int_le (pos 0) low && int_le high (pos len)) }
{
    0 <= low && high <= len as i128
}

/// Whether the elements of all copies are inside, the last of which has this number. Each copy stands between the first and the
/// last one, whatever the sign of the extent.
fn copies_inside(ty: &Datatype, last: u32, origin: i64, len: usize) -> bool
    requires { 0 < length (entries_of ty.now) }
    ensures { result ≡ are_inside len (elements (typemap_of ty.now) (last + 1) origin) }
{
    let bounds = ty.bounds();
    let first = i128::from(origin);
    let last = copy_at(origin, last, ty.extent());
    let low = i128::from(bounds.true_lb) + first.min(last);
    let high = i128::from(bounds.true_ub) + first.max(last);
    lies_within(low, high, len)
}

/// Whether each byte of each element of an operation lies in a buffer of so many bytes (MPI 4.1, section 5.1.11). Copies without
/// elements, and no copies, are inside whatever the origin is. It takes no memory, and the same few steps whatever the count.
pub fn span_inside(ty: &Datatype, count: u32, origin: i64, len: usize) -> bool
    ensures { result ≡ are_inside len (elements (typemap_of ty.now) count origin) }
{
    !has_elements(ty, count) || copies_inside(ty, count - 1, origin, len)
}

/// How many packed bytes one copy has in a representation. It takes no memory.
pub fn copy_size(ty: &Datatype, rep: Rep) -> u64
    ensures { result ≡ total rep (entries_of ty.now) }
{
    match rep {
        Rep::Native => ty.bounds().size,
        Rep::External32 => ty.bounds().ext_size,
    }
}

/// How many packed bytes the elements of an operation have in a representation, wherever it begins (MPI 4.1, section 5.2). It
/// takes no memory.
pub fn packed_size(ty: &Datatype, rep: Rep, count: u32) -> u128
    ensures { (origin : ℤ) → result ≡ total rep (elements (typemap_of ty.now) count origin) }
{
    u128::from(count) * u128::from(copy_size(ty, rep))
}
