//! The line forms of constructors.
ghost use Rattle.std.specs.Prelude.{◌≡◌};
ghost use Rattle.dt_script.specs.Words.{words_of};
ghost use Rattle.dt_script.specs.Reading.{Gives};
ghost use Rattle.dt_script.specs.Form.{one_of};
ghost use Rattle.dt_script.specs.Forms.{array_forms, listed_forms, ctor_of};

use crate::command::Ctor;
use crate::fields::Fields;
use crate::line::LineFault;
use crate::reading::word;
use std::alloc::Global;

/// What follows the first word of an array's constructor.
#[tactic(auto, unfolding(crate::specs::Forms::array_forms))]
fn array(alloc: Global, first: &[u8], line: &[u8]) -> Result<Ctor, LineFault>
    ensures { Gives (λ x. x) result (one_of array_forms first.now (words_of line.now)) }
{
    if first == b"subarray".as_slice() {
        let (order, (old, dims)) = Fields::read(alloc, line)?;
        Ok(Ctor::Subarray { order, old, dims })
    } else if first == b"darray".as_slice() {
        let (size, (rank, (order, (old, dims)))) = Fields::read(alloc, line)?;
        Ok(Ctor::Darray {
            size,
            rank,
            order,
            old,
            dims,
        })
    } else {
        Err(LineFault::Syntax)
    }
}

/// What follows the first word of a constructor that lists its places, or of an array's.
#[tactic(auto, unfolding(crate::specs::Forms::listed_forms))]
fn listed(alloc: Global, first: &[u8], line: &[u8]) -> Result<Ctor, LineFault>
    ensures { Gives (λ x. x) result (one_of listed_forms first.now (words_of line.now)) }
{
    if first == b"indexed".as_slice() {
        let (old, blocks) = Fields::read(alloc, line)?;
        Ok(Ctor::Indexed { old, blocks })
    } else if first == b"hindexed".as_slice() {
        let (old, blocks) = Fields::read(alloc, line)?;
        Ok(Ctor::Hindexed { old, blocks })
    } else if first == b"indexed_block".as_slice() {
        let (old, (block, disps)) = Fields::read(alloc, line)?;
        Ok(Ctor::IndexedBlock { old, block, disps })
    } else if first == b"hindexed_block".as_slice() {
        let (old, (block, disps)) = Fields::read(alloc, line)?;
        Ok(Ctor::HindexedBlock { old, block, disps })
    } else if first == b"struct".as_slice() {
        let parts = Fields::read(alloc, line)?;
        Ok(Ctor::Struct { parts })
    } else {
        array(alloc, first, line)
    }
}

/// What follows `=`.
#[tactic(auto, unfolding(crate::specs::Forms::ctor_of, crate::specs::Forms::ctor_forms))]
pub(crate) fn ctor(alloc: Global, line: &[u8]) -> Result<Ctor, LineFault>
    ensures { Gives (λ x. x) result (ctor_of (words_of line.now)) }
{
    let (first, line) = word(line)?;
    if first == b"contiguous".as_slice() {
        let (count, (old, ())) = Fields::read(alloc, line)?;
        Ok(Ctor::Contiguous { count, old })
    } else if first == b"vector".as_slice() {
        let (count, (block, (stride, (old, ())))) = Fields::read(alloc, line)?;
        Ok(Ctor::Vector {
            count,
            block,
            stride,
            old,
        })
    } else if first == b"hvector".as_slice() {
        let (count, (block, (stride, (old, ())))) = Fields::read(alloc, line)?;
        Ok(Ctor::Hvector {
            count,
            block,
            stride,
            old,
        })
    } else if first == b"resized".as_slice() {
        let (lb, (extent, (old, ()))) = Fields::read(alloc, line)?;
        Ok(Ctor::Resized { lb, extent, old })
    } else if first == b"dup".as_slice() {
        let (old, ()) = Fields::read(alloc, line)?;
        Ok(Ctor::Dup { old })
    } else {
        listed(alloc, first, line)
    }
}
