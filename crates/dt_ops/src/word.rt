//! Words of a kind, and what they stand for.
ghost use Rattle.std.specs.Prelude.{◌≡◌, ◌+◌, ◌↔◌, IsTrue};
ghost use Rattle.dt_ops.specs.Word.{range_of, IsWord, value_of};

use dt_kinds::Kind;

/// Whether a number is a word of a kind: whether an element's bytes, the lowest first, can be it.
pub fn is_word(kind: Kind, x: u64) -> bool
    ensures { IsTrue result ↔ IsWord kind x }
{
    x <= greatest(kind)
}

/// The greatest word of a kind: all bits of an element's bytes are 1.
pub(crate) fn greatest(kind: Kind) -> u64
    ensures { result + 1 ≡ range_of kind }
{
    match kind.size() {
        1 => 0xff,
        2 => 0xffff,
        4 => 0xffff_ffff,
        _ => u64::MAX,
    }
}

/// What a word of a kind stands for.
pub(crate) fn value(kind: Kind, x: u64) -> i128
    ensures { result ≡ value_of kind x }
{
    let most = greatest(kind);
    if kind.signed() && x > most / 2 {
        i128::from(x) - i128::from(most) - 1
    } else {
        i128::from(x)
    }
}
