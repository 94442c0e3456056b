//! Where a run of a loop program stands.
ghost use Rattle.std.specs.Prelude.{◌≡◌, ◌<◌, [], ◌∷◌, length, slice_get, IfSome, IfNone};

use arrayvec::ArrayVec;
use std::marker::Model;

/// One level of a run. At an element, `instr` is the place of its `One`, `base` its position at origin 0, and the other two are 0.
/// Further out, `instr` is the place of a `Loop`, an `Each` or a `Seq` and `base` its offset; `turn` is the turn, the spot's number
/// (with `copy`, the copy of that spot) or the place of the part that is being run.
#[derive(Clone, Copy, Default)]
pub struct Frame {
    pub instr: usize,
    pub turn: u64,
    pub base: i64,
    pub copy: u32,
}

/// The levels of a run, at most 130 of them. Contracts see the innermost first.
#[derive(Drop)]
pub struct Frames {
    levels: ArrayVec<Frame, 130>,
}

impl Model for Frames {
    ghost use Rattle.std.specs.Prelude.{List, ◌≤◌, length, reverse};
    ghost use Rattle.dt_cursor.specs.declared.frames.Frame.{Frame};

    ghost Value = { List Frame };

    ghost view = { λ f. reverse f.levels.items };

    ghost invariant = { λ f. length f.levels.items ≤ 130 };
}

impl Frames {
    /// No frames: they stand at the end of any program.
    pub fn new() -> Frames
        ensures { result ≡ [] }
    {
        Frames {
            levels: ArrayVec::new(),
        }
    }

    /// How many levels there are.
    pub fn len(&self) -> usize
        ensures { result ≡ length self.now }
    {
        self.levels.len()
    }

    /// One level further in.
    pub(crate) fn push(&mut self, frame: Frame)
        requires { length self.old < 130 }
        ensures { self.new ≡ frame ∷ self.old }
    {
        self.levels.push(frame);
    }

    /// Takes the innermost level away, or answers `None` where there is none.
    pub(crate) fn pop(&mut self) -> Option<Frame>
        ensures some { IfSome result (λ frame. self.old ≡ frame ∷ self.new) }
        ensures none { IfNone result ((self.old ≡ []) × (self.new ≡ [])) }
    {
        self.levels.pop()
    }

    /// Leaves all levels.
    pub(crate) fn clear(&mut self)
        ensures { self.new ≡ [] }
    {
        self.levels.clear();
    }

    /// The innermost level.
    pub(crate) fn innermost(&self) -> Option<Frame>
        ensures { result ≡ slice_get self.now 0 }
    {
        self.levels.as_slice().last().copied()
    }
}
