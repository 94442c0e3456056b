//! How many elements and copies received bytes are.
ghost use Rattle.std.specs.Prelude.{◌≡◌, ℕ, ◌+◌, ◌<◌, ◌≤◌, length};
ghost use Rattle.std.specs.List.{AllByRecursion};
ghost use Rattle.dt_map.specs.Counts.{received_elements, received_copies};
ghost use Rattle.dt_map.specs.Packed.{total};
ghost use Rattle.dt_map.specs.Placing.{place};
ghost use Rattle.dt_map.specs.Setting.{done};
ghost use Rattle.dt_type.specs.Datatype.{typemap_of, depth_of};
ghost use Rattle.dt_type.specs.Shape.{part_members, placed_parts};

use crate::span::copy_size;
use dt_kinds::Rep;
use dt_type::{Datatype, ShapeOf, ShapePart};

/// How many packed bytes a part's copies have.
fn part_size(part: &ShapePart, rep: Rep) -> u128
    ensures { result ≡ total rep (place (part_members part.now)).entries }
{
    u128::from(part.copies) * u128::from(copy_size(&part.old, rep))
}

/// How many elements a part's copies have, where so many bytes hold them all.
fn part_elements(part: &ShapePart, rep: Rep, bytes: u64) -> u64
    requires { total rep (place (part_members part.now)).entries ≤ bytes }
    ensures { result ≡ length (place (part_members part.now)).entries }
{
    u64::from(part.copies) * part.old.bounds().elements
}

/// The part in which bytes end that don't fill all parts, with the number of elements before it and of the bytes in it.
fn part_with<'a>(parts: &'a [ShapePart], rep: Rep, bytes: u64) -> (u64, &'a ShapePart, u64)
    requires within { bytes < total rep (placed_parts parts.now).entries }
    ensures elements { done rep (placed_parts parts.now).entries bytes ≡ result.0 + done rep (place (part_members result.1.now)).entries result.2 }
    ensures within { result.2 < total rep (place (part_members result.1.now)).entries }
    ensures below { (limit : ℕ) → AllByRecursion (λ p. depth_of p.old < limit) parts.now → depth_of result.1.now.old < limit }
{
    let mut before: u64 = 0;
    let mut left = bytes;
    for part in parts {
        let size = part_size(part, rep);
        if u128::from(left) < size {
            return (before, part, left);
        }
        before += part_elements(part, rep, left);
        left -= size as u64;
    }
    unreachable!()
}

/// The number of elements among received bytes (MPI 4.1, section 5.1.11): leading elements of the signature, repeated without end,
/// whose packed bytes are all there. An element that is cut doesn't count, and a type of size 0 has none. It takes no memory, and
/// the time of reading the shapes on the way down to the element that is cut.
pub fn whole_elements(ty: &Datatype, rep: Rep, bytes: u64) -> u64
    ensures { result ≡ received_elements rep (typemap_of ty.now) bytes }
{
    let one = copy_size(ty, rep);
    if one == 0 {
        return 0;
    }
    let whole = bytes / one * ty.bounds().elements;
    let left = bytes % one;
    match ty.shape() {
        ShapeOf::One(_) => whole,
        ShapeOf::Grid { old, .. } => whole + whole_elements(old, rep, left),
        ShapeOf::Each { old, .. } => whole + whole_elements(old, rep, left),
        ShapeOf::Seq { parts } => {
            let (before, part, left) = part_with(parts.as_slice(), rep, left);
            whole + before + whole_elements(&part.old, rep, left)
        }
    }
}

/// The number of copies that received bytes are (MPI 4.1, section 3.2.5), or none where they aren't whole copies. For a type of
/// size 0 no bytes are 0 copies, and more bytes are none. It takes no memory.
pub fn whole_copies(ty: &Datatype, rep: Rep, bytes: u64) -> Option<u64>
    ensures { result ≡ received_copies rep (typemap_of ty.now) bytes }
{
    let one = copy_size(ty, rep);
    if one == 0 {
        return (bytes == 0).then_some(0);
    }
    (bytes % one == 0).then_some(bytes / one)
}
