//! One level of the search for a packed byte.
ghost use Rattle.std.specs.Prelude.{◌≡◌, ℕ, ◌+◌, ◌*◌, ◌^◌, ◌<◌, ◌≤◌, ◌+ℤ◌, nat_abs, Some, slice_get, List, IfSome, IfNone, length};
ghost use Rattle.dt_cursor.specs.Search.{EntersNext, IsFound, IsNarrowed, IsSought, IsStep, IsTurnSought, size_in};
ghost use Rattle.dt_kinds.specs.declared.kind.Rep as reps;
ghost use Rattle.dt_kinds.specs.Kind.{packed_size};
ghost use Rattle.dt_layout.specs.Body.{Body};
ghost use Rattle.dt_layout.specs.declared.instr.Instr as instr;
ghost use Rattle.dt_layout.specs.declared.instr.Instr.TheVariants.{One, Loop};
ghost use Rattle.dt_map.specs.declared.entry.Entry as entry;

use crate::frames::{Frame, Frames};
use dt_kinds::{Kind, Rep};
use dt_layout::Sizes;
use dt_offsets::{Turns, turn_at};

/// A body further in, and the packed byte of it that is sought.
#[derive(Clone, Copy)]
pub(crate) struct Inner {
    pub at: usize,
    pub base: i64,
    pub left: u64,
}

/// What a step of the search comes to.
#[derive(Clone, Copy)]
pub(crate) enum Step {
    /// The frames stand at the byte's element, of which so many bytes lie before, or at the end.
    At(u8),
    /// The byte is sought further in.
    In(Inner),
}

/// The copy that holds a byte, and which of its bytes that is.
#[derive(Clone, Copy)]
pub(crate) struct Copied {
    pub number: u64,
    pub left: u64,
}

/// The bytes of an element.
pub(crate) fn bytes_of(kind: Kind, rep: Rep) -> u64
    ensures { result ≡ packed_size rep kind }
{
    match rep {
        Rep::Native => u64::from(kind.size()),
        Rep::External32 => u64::from(kind.ext_size()),
    }
}

/// The bytes of a body.
pub(crate) fn size_by(sizes: Sizes, rep: Rep) -> u64
    ensures { result ≡ size_in rep sizes }
{
    match rep {
        Rep::Native => sizes.native,
        Rep::External32 => sizes.ext,
    }
}

/// Which of so many copies of a size holds a byte, if one does.
pub(crate) fn share(left: u64, count: u64, size: u64) -> Option<Copied>
    ensures some { IfSome result (λ s. (s.number < count) × (left ≡ s.number * size + s.left) × (s.left < size)) }
    ensures none { IfNone result (count * size ≤ left) }
{
    if size == 0 {
        return None;
    }
    let number = left / size;
    if number < count {
        Some(Copied {
            number,
            left: left % size,
        })
    } else {
        None
    }
}

/// An offset further on.
pub(crate) fn moved(base: i64, by: i128) -> i64
    requires { nat_abs (base +ℤ by) < 2 ^ 63 }
    ensures { result ≡ base +ℤ by }
{
    (i128::from(base) + by) as i64
}

/// At an element: its frame is pushed where it holds the byte, and else the byte is the end.
pub(crate) fn at_one(
    kind: Kind,
    rep: Rep,
    at: usize,
    base: i64,
    left: u64,
    frames: &mut Frames,
) -> u8
    requires { (code : List instr.Instr) × (body : Body) × (es : List entry.Entry) × (slice_get code at ≡ Some (One kind)) × IsSought code rep frames.old at base left body es }
    ensures { (code : List instr.Instr) (body : Body) (es : List entry.Entry) → slice_get code at ≡ Some (One kind) → IsSought code rep frames.old at base left body es
        → IsFound code rep es left frames.new result }
{
    if left >= bytes_of(kind, rep) {
        return 0;
    }
    frames.push(Frame {
        instr: at,
        turn: 0,
        base,
        copy: 0,
    });
    left as u8
}

/// Into a turn of a loop that stands at a place: the one that holds a byte of the loop.
pub(crate) fn into_turn(
    turns: &Turns,
    at: usize,
    base: i64,
    turn: Copied,
    frames: &mut Frames,
) -> Inner
    requires fits { at + 1 < 2 ^ 64 }
    requires sought { (code : List instr.Instr) × (rep : reps.Rep) × (left : ℕ) × (body : Body) × (es : List entry.Entry) × IsTurnSought code rep frames.old at base turns.now turn left body es }
    ensures inside { result.at ≡ at + 1 }
    ensures narrowed { (code : List instr.Instr) (rep : reps.Rep) (left : ℕ) (body : Body) (es : List entry.Entry) → IsTurnSought code rep frames.old at base turns.now turn left body es
        → IsNarrowed code rep es left frames.new result.at result.base result.left }
{
    let by = turn_at(turns, turn.number);
    frames.push(Frame {
        instr: at,
        turn: turn.number,
        base,
        copy: 0,
    });
    Inner {
        at: at + 1,
        base: moved(base, by),
        left: turn.left,
    }
}

/// Into a turn of a loop.
pub(crate) fn at_loop(
    turns: &Turns,
    sizes: Sizes,
    next: usize,
    rep: Rep,
    at: usize,
    base: i64,
    left: u64,
    frames: &mut Frames,
) -> Step
    requires { (code : List instr.Instr) × (body : Body) × (es : List entry.Entry) × (slice_get code at ≡ Some (Loop turns.now sizes next)) × IsSought code rep frames.old at base left body es }
    ensures step { (code : List instr.Instr) → slice_get code at ≡ Some (Loop turns.now sizes next) → IsStep code rep frames.old at base left frames.new result }
    ensures enters { EntersNext at result }
{
    let Some(turn) = share(left, turns.count, size_by(sizes, rep)) else {
        return Step::At(0);
    };
    Step::In(into_turn(turns, at, base, turn, frames))
}
