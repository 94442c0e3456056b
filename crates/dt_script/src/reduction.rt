//! Words that only reductions have.
ghost use Rattle.std.specs.Prelude.{◌≡◌};
ghost use Rattle.dt_script.specs.Reduction.{op_of, how_of};

use crate::command::{How, Op};

/// The operation that a word names.
pub(crate) fn op(word: &[u8]) -> Option<Op>
    ensures { result ≡ op_of word.now }
{
    if word == b"sum".as_slice() {
        Some(Op::Sum)
    } else if word == b"prod".as_slice() {
        Some(Op::Prod)
    } else if word == b"min".as_slice() {
        Some(Op::Min)
    } else if word == b"max".as_slice() {
        Some(Op::Max)
    } else if word == b"and".as_slice() {
        Some(Op::And)
    } else if word == b"or".as_slice() {
        Some(Op::Or)
    } else if word == b"xor".as_slice() {
        Some(Op::Xor)
    } else if word == b"first".as_slice() {
        Some(Op::First)
    } else if word == b"last".as_slice() {
        Some(Op::Last)
    } else {
        None
    }
}

/// The sequence of joins that a word names: `halves` or `left`.
pub(crate) fn how(word: &[u8]) -> Option<How>
    ensures { result ≡ how_of word.now }
{
    if word == b"halves".as_slice() {
        Some(How::Halves)
    } else if word == b"left".as_slice() {
        Some(How::Left)
    } else {
        None
    }
}
