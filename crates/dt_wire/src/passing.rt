//! Bytes passed over, without memory: each function answers the bytes behind what it passed over, or those from the first wrong one on.
ghost use Rattle.std.specs.Prelude.{◌≡◌, ◌≤◌, MatchOption, slice_get};
ghost use Rattle.dt_wire.specs.Fault.{IsBadAt, IsText};
ghost use Rattle.dt_wire.specs.Reading.{byte_in, combiners, form_at, item_at, number_at, tag_in, text_at, where_true, with_room};
ghost use Rattle.dt_wire.specs.Skipping as spec;
ghost use Rattle.dt_wire.specs.Skipping.{Gives, Leaves, erased};

use byteorder::{BigEndian, ByteOrder};
use dt_form::Combiner;

/// The next byte.
fn byte(bytes: &[u8]) -> Result<(u8, &[u8]), &[u8]>
    ensures { Gives result (item_at byte_in bytes.now) }
{
    match bytes.split_first() {
        Some((byte, rest)) => Ok((*byte, rest)),
        None => Err(bytes),
    }
}

/// Passes over so many bytes.
pub(crate) fn skip(bytes: &[u8], n: u64) -> Result<&[u8], &[u8]>
    ensures { Leaves result (spec.skip n bytes.now) }
{
    let mut rest = bytes;
    'each: for _ in 0..n {
        rest = byte(rest)?.1;
    }
    Ok(rest)
}

/// Passes over a byte from `least` to `most`.
fn within(bytes: &[u8], least: u8, most: u8) -> Result<&[u8], &[u8]>
    ensures { Leaves result (spec.skip_within least most bytes.now) }
{
    match bytes.split_first() {
        Some((byte, rest)) if least <= *byte && *byte <= most => Ok(rest),
        _ => Err(bytes),
    }
}

/// How long a list is.
#[tactic(auto, using(crate::proofs::Lefts::number_read, crate::proofs::Lefts::number_missing))]
pub(crate) fn number(bytes: &[u8]) -> Result<(u32, &[u8]), &[u8]>
    ensures { Gives result (number_at bytes.now) }
{
    let rest = skip(bytes, 4)?;
    Ok((BigEndian::read_u32(bytes), rest))
}

/// Passes over a list of items of one size, behind its length.
#[tactic(auto, using(crate::proofs::Lefts::list_passed, crate::proofs::Lefts::list_stuck))]
fn list(bytes: &[u8], size: u64) -> Result<&[u8], &[u8]>
    requires { size ≤ 12 }
    ensures { Leaves result (spec.skip_list (spec.skip size) bytes.now) }
{
    let (n, rest) = number(bytes)?;
    skip(rest, u64::from(n) * size)
}

/// Passes over a block length and a list of displacements of one size.
#[tactic(auto, unfolding(crate::specs::Skipping::skip_disps))]
fn disps(bytes: &[u8], size: u64) -> Result<&[u8], &[u8]>
    requires { size ≤ 12 }
    ensures { Leaves result (spec.skip_disps size bytes.now) }
{
    let rest = skip(bytes, 4)?;
    list(rest, size)
}

/// Passes over the order and the dimensions of a subarray.
#[tactic(auto, unfolding(crate::specs::Skipping::skip_sub_dims))]
fn sub_dims(bytes: &[u8]) -> Result<&[u8], &[u8]>
    ensures { Leaves result (spec.skip_sub_dims bytes.now) }
{
    let rest = within(bytes, 0, 1)?;
    list(rest, 12)
}

/// Passes over a dimension of a darray.
#[tactic(auto, unfolding(crate::specs::Skipping::skip_dist_dim))]
fn dist_dim(bytes: &[u8]) -> Result<&[u8], &[u8]>
    ensures { Leaves result (spec.skip_dist_dim bytes.now) }
{
    let dist = skip(bytes, 4)?;
    let rest = within(dist, 1, 3)?;
    skip(rest, 8)
}

/// Passes over so many dimensions of a darray.
fn each_dist_dim(bytes: &[u8], n: u32) -> Result<&[u8], &[u8]>
    ensures { Leaves result (spec.times spec.skip_dist_dim n bytes.now) }
{
    let mut rest = bytes;
    'dims: for _ in 0..n {
        rest = dist_dim(rest)?;
    }
    Ok(rest)
}

/// Passes over the dimensions of a darray, behind their number.
#[tactic(auto, using(crate::proofs::Lefts::list_as, crate::proofs::Lefts::list_stuck))]
fn dist_list(bytes: &[u8]) -> Result<&[u8], &[u8]>
    ensures { Leaves result (spec.skip_list spec.skip_dist_dim bytes.now) }
{
    let (n, rest) = number(bytes)?;
    each_dist_dim(rest, n)
}

/// Passes over the arguments of a darray.
#[tactic(auto, unfolding(crate::specs::Skipping::skip_dist_dims))]
fn dist_dims(bytes: &[u8]) -> Result<&[u8], &[u8]>
    ensures { Leaves result (spec.skip_dist_dims bytes.now) }
{
    let order = skip(bytes, 8)?;
    let rest = within(order, 0, 1)?;
    dist_list(rest)
}

/// Passes over the arguments in front of the old type, or of a basic datatype.
fn arguments(bytes: &[u8], combiner: Combiner) -> Result<&[u8], &[u8]>
    ensures { Leaves result (spec.skip_arguments combiner bytes.now) }
{
    match combiner {
        Combiner::Named => within(bytes, 0, 22),
        Combiner::Dup | Combiner::Struct => Ok(bytes),
        Combiner::Contiguous => skip(bytes, 4),
        Combiner::Vector => skip(bytes, 12),
        Combiner::Hvector | Combiner::Resized => skip(bytes, 16),
        Combiner::Indexed => list(bytes, 8),
        Combiner::Hindexed => list(bytes, 12),
        Combiner::IndexedBlock => disps(bytes, 4),
        Combiner::HindexedBlock => disps(bytes, 8),
        Combiner::Subarray => sub_dims(bytes),
        Combiner::Darray => dist_dims(bytes),
    }
}

/// The constructors, in the order of their tags.
const COMBINERS: [Combiner; 13] = [
    Combiner::Named,
    Combiner::Dup,
    Combiner::Contiguous,
    Combiner::Vector,
    Combiner::Hvector,
    Combiner::Indexed,
    Combiner::Hindexed,
    Combiner::IndexedBlock,
    Combiner::HindexedBlock,
    Combiner::Struct,
    Combiner::Subarray,
    Combiner::Darray,
    Combiner::Resized,
];

/// The constructor of this number.
fn combiner(byte: u8) -> Option<Combiner>
    ensures { result ≡ slice_get combiners byte }
{
    COMBINERS.get(usize::from(byte)).copied()
}

/// Whether a form can stand where so many levels are left below it.
fn has_room(combiner: Combiner, levels: u32) -> bool
    ensures { with_room levels combiner ≡ where_true result combiner }
{
    levels > 0 || matches!(combiner, Combiner::Named | Combiner::Struct)
}

/// The constructor of a form, where so many levels are left below it.
#[tactic(auto, unfolding(crate::specs::Reading::tag_in))]
pub(crate) fn tag(bytes: &[u8], levels: u32) -> Result<(Combiner, &[u8]), &[u8]>
    ensures { Gives result (item_at (tag_in levels) bytes.now) }
{
    let Some((byte, rest)) = bytes.split_first() else {
        return Err(bytes);
    };
    match combiner(*byte) {
        Some(combiner) if has_room(combiner, levels) => Ok((combiner, rest)),
        _ => Err(bytes),
    }
}

/// Passes over the four bytes before a form.
#[tactic(auto, unfolding(crate::specs::Skipping::skip_magic))]
pub(crate) fn magic(bytes: &[u8]) -> Result<&[u8], &[u8]>
    ensures { Leaves result (spec.skip_magic bytes.now) }
{
    let t = within(bytes, b'd', b'd')?;
    let w = within(t, b't', b't')?;
    let one = within(w, b'w', b'w')?;
    within(one, b'1', b'1')
}

/// Passes over a struct without parts, as it stands where no level is left.
#[tactic(auto, unfolding(crate::specs::Skipping::skip_zeros))]
pub(crate) fn zeros(bytes: &[u8]) -> Result<&[u8], &[u8]>
    ensures { Leaves result (spec.skip_zeros bytes.now) }
{
    let three = within(bytes, 0, 0)?;
    let two = within(three, 0, 0)?;
    let one = within(two, 0, 0)?;
    within(one, 0, 0)
}

/// Passes over a form of so many levels at most.
#[cycle(forms)]
fn form(bytes: &[u8], levels: u32) -> Result<&[u8], &[u8]>
    ensures { Leaves result (erased (form_at levels bytes.now)) }
{
    if levels == 0 {
        return Err(bytes);
    }
    let (combiner, rest) = tag(bytes, levels - 1)?;
    layer(rest, combiner, levels - 1)
}

/// Passes over the bytes behind a tag, where so many levels are left below.
#[cycle(forms)]
fn layer(bytes: &[u8], combiner: Combiner, levels: u32) -> Result<&[u8], &[u8]>
    ensures { Leaves result (spec.skip_layer levels (λ rest. erased (form_at levels rest)) combiner bytes.now) }
{
    match combiner {
        Combiner::Named => arguments(bytes, combiner),
        Combiner::Struct => parts(bytes, levels),
        _ => {
            let old = arguments(bytes, combiner)?;
            form(old, levels)
        }
    }
}

/// Passes over the parts of a struct, behind their number.
#[cycle(forms)]
fn parts(bytes: &[u8], levels: u32) -> Result<&[u8], &[u8]>
    ensures { Leaves result (spec.skip_parts levels (λ rest. erased (form_at levels rest)) bytes.now) }
{
    if levels == 0 {
        return zeros(bytes);
    }
    let (n, rest) = number(bytes)?;
    each_part(rest, n, levels)
}

/// Passes over so many parts of a struct.
#[cycle(forms)]
fn each_part(bytes: &[u8], n: u32, levels: u32) -> Result<&[u8], &[u8]>
    ensures { Leaves result (spec.times (spec.skip_part (λ rest. erased (form_at levels rest))) n bytes.now) }
{
    let mut rest = bytes;
    'parts: for _ in 0..n {
        rest = part(rest, levels)?;
    }
    Ok(rest)
}

/// Passes over a part of a struct.
#[cycle(forms)]
fn part(bytes: &[u8], levels: u32) -> Result<&[u8], &[u8]>
    ensures { Leaves result (spec.skip_part (λ rest. erased (form_at levels rest)) bytes.now) }
{
    let old = skip(bytes, 12)?;
    form(old, levels)
}

/// Passes over a form behind its four bytes.
#[tactic(auto, using(crate::proofs::Erasing::pass_text))]
fn text(bytes: &[u8]) -> Result<&[u8], &[u8]>
    ensures { Leaves result (erased (text_at bytes.now)) }
{
    let first = magic(bytes)?;
    form(first, 64)
}

/// Where it shows that bytes are no text of a form: at the first byte with which none begins, or at their end. They are one where
/// there is no such place. It takes no memory, and a time that grows with the bytes alone.
pub fn first_bad(bytes: &[u8]) -> Option<usize>
    ensures { MatchOption result (IsText bytes.now) (λ at. IsBadAt bytes.now at) }
{
    match text(bytes) {
        Ok(rest) => {
            if rest.is_empty() {
                None
            } else {
                Some(bytes.len() - rest.len())
            }
        }
        Err(left) => Some(bytes.len() - left.len()),
    }
}
