//! What each operation joins two words of a kind to. The functions are total: of other numbers they answer what their definitions
//! say.
ghost use Rattle.std.specs.Prelude.{◌≡◌};
ghost use Rattle.dt_ops.specs.Joins.{sum_of, prod_of, min_of, max_of, and_of, or_of, xor_of, first_of, last_of};

use crate::word::{greatest, value};
use dt_kinds::Kind;

/// The sum, modulo the range of the kind: of words the two's complement sum, be the kind signed or not.
pub fn sum(kind: Kind, a: u64, b: u64) -> u64
    ensures { result ≡ sum_of kind a b }
{
    a.wrapping_add(b) & greatest(kind)
}

/// The product, modulo the range of the kind.
pub fn prod(kind: Kind, a: u64, b: u64) -> u64
    ensures { result ≡ prod_of kind a b }
{
    a.wrapping_mul(b) & greatest(kind)
}

/// The word that stands for the lesser number, by two's complement where the kind has a sign.
pub fn min(kind: Kind, a: u64, b: u64) -> u64
    ensures { result ≡ min_of kind a b }
{
    if value(kind, a) <= value(kind, b) {
        a
    } else {
        b
    }
}

/// The word that stands for the greater number, by two's complement where the kind has a sign.
pub fn max(kind: Kind, a: u64, b: u64) -> u64
    ensures { result ≡ max_of kind a b }
{
    if value(kind, a) <= value(kind, b) {
        b
    } else {
        a
    }
}

/// The bits that both words have.
pub fn and(_kind: Kind, a: u64, b: u64) -> u64
    ensures { result ≡ and_of _kind a b }
{
    a & b
}

/// The bits that one word or the other has, or both.
pub fn or(_kind: Kind, a: u64, b: u64) -> u64
    ensures { result ≡ or_of _kind a b }
{
    a | b
}

/// The bits that one word has and the other hasn't.
pub fn xor(_kind: Kind, a: u64, b: u64) -> u64
    ensures { result ≡ xor_of _kind a b }
{
    a ^ b
}

/// The first word.
pub fn first(_kind: Kind, a: u64, _b: u64) -> u64
    ensures { result ≡ first_of _kind a _b }
{
    a
}

/// The last word.
pub fn last(_kind: Kind, _a: u64, b: u64) -> u64
    ensures { result ≡ last_of _kind _a b }
{
    b
}
