//! All that bounds are made of, of a placed typemap that is never listed.
ghost use Rattle.std.specs.Prelude.{◌≡◌};
ghost use Rattle.std.specs.List.{AllByRecursion};
ghost use Rattle.dt_map.specs.Digest.{digest_of};
ghost use Rattle.dt_offsets.specs.Near.{IsNearSpan};
ghost use Rattle.dt_type.specs.Conditions.{HasNumbers, IsShapePart};
ghost use Rattle.dt_type.specs.Cover.{covered};
ghost use Rattle.dt_type.specs.Datatype.{typemap_of};
ghost use Rattle.dt_type.specs.Shape.{placed_by, placed_parts};

use crate::datatype::Datatype;
use crate::shape::{Cover, Shape, ShapeOf, ShapePart};
use dt_map::Digest;
use dt_offsets::{grid_reach, row_reach, spots_reach};

/// Of an old type, from the numbers that it keeps.
fn of_type(old: &Datatype) -> Digest
    ensures value { result ≡ digest_of (typemap_of old.now) }
    ensures span { IsNearSpan result.span }
    ensures marks { IsNearSpan result.marks }
{
    Digest::of_bounds(&old.bounds(), old.marks())
}

/// Of parts, one after another.
fn of_parts(parts: &[ShapePart]) -> Digest
    requires { AllByRecursion IsShapePart parts.now }
    ensures { result ≡ digest_of (placed_parts parts.now) }
{
    let mut digest = Digest::none();
    for part in parts {
        let reach = row_reach(part.first, part.copies, part.step);
        digest = digest.joined(of_type(&part.old).copied(reach));
    }
    digest
}

/// Of all that a shape places.
fn of_shape(shape: &Shape) -> Digest
    requires { HasNumbers shape.now }
    ensures { result ≡ digest_of (placed_by shape.now) }
{
    match shape {
        ShapeOf::One(kind) => Digest::of_kind(*kind),
        ShapeOf::Grid { turns, old } => of_type(old).copied(grid_reach(turns.as_slice())),
        ShapeOf::Each { spots, old } => of_type(old).copied(spots_reach(spots.as_slice())),
        ShapeOf::Seq { parts } => of_parts(parts.as_slice()),
    }
}

/// Of all that a shape places, with the marks that a cover leaves.
pub(crate) fn of_covered(shape: &Shape, cover: Cover) -> Digest
    requires { HasNumbers shape.now }
    ensures { result ≡ digest_of (covered cover (placed_by shape.now)) }
{
    let digest = of_shape(shape);
    match cover {
        Cover::Keep => digest,
        Cover::Erase(marks) => digest.with_marks(Some(marks)),
    }
}
