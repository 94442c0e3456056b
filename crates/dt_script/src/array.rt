//! Words that only arrays have.
ghost use Rattle.std.specs.Prelude.{◌≡◌};
ghost use Rattle.dt_script.specs.Array.{order_of, dist_of, darg_of};

use crate::number::int;
use dt_form::{Dist, Order};

/// The order of indices that a word spells: `c` or `fortran`.
pub(crate) fn order(word: &[u8]) -> Option<Order>
    ensures { result ≡ order_of word.now }
{
    if word == b"c".as_slice() {
        Some(Order::C)
    } else if word == b"fortran".as_slice() {
        Some(Order::Fortran)
    } else {
        None
    }
}

/// How a word has a dimension dealt out: `block`, `cyclic` or `none`.
pub(crate) fn dist(word: &[u8]) -> Option<Dist>
    ensures { result ≡ dist_of word.now }
{
    if word == b"block".as_slice() {
        Some(Dist::Block)
    } else if word == b"cyclic".as_slice() {
        Some(Dist::Cyclic)
    } else if word == b"none".as_slice() {
        Some(Dist::Whole)
    } else {
        None
    }
}

/// The length of the blocks dealt out: `-` for the default, or a number that an `i32` holds.
#[tactic(auto, unfolding(crate::specs::Array::darg_of))]
pub(crate) fn darg(word: &[u8]) -> Option<Option<i32>>
    ensures { result ≡ darg_of word.now }
{
    if word == b"-".as_slice() {
        return Some(None);
    }
    let length = int(word)?;
    Some(Some(length))
}
