//! Closures kept beside the fact that they answer a law's join.
ghost use Rattle.std.specs.Prelude.{◌≡◌, ℕ};
ghost use Rattle.dt_kinds.specs.declared.kind.Kind.{Kind};
ghost use Rattle.dt_ops.specs.Stored.{TakesWords, Joins};
ghost use Rattle.dt_ops.specs.Word.{IsWord};

use crate::law::Law;
use dt_kinds::Kind;
use std::marker::{Model, PhantomData};

/// What can be called on a kind and two numbers, and answers a number: every closure and every function of that shape.
pub trait Call {
    /// Holds of a kind and two numbers on which it may be called.
    ghost may: { Self → Kind → ℕ → ℕ → Type 0 };

    /// Holds besides of what it may answer.
    ghost gives: { Self → Kind → ℕ → ℕ → ℕ → Type 0 };

    fn call(&self, kind: Kind, a: u64, b: u64) -> u64
        requires { may self.now kind a b }
        ensures { gives self.now kind a b result };
}

impl<F: Fn(Kind, u64, u64) -> u64> Call for F {
    ghost may = { λ f kind a b. F.pre f kind a b };

    ghost gives = { λ f kind a b r. F.post f kind a b r };

    fn call(&self, kind: Kind, a: u64, b: u64) -> u64 {
        self(kind, a, b)
    }
}

/// A closure that may be called on every kind and any two words of it, and answers the law's join there: an operation as a user may
/// make one (MPI 4.1, section 6.9.5). The value keeps the closure beside this fact.
#[derive(Drop)]
pub struct StoredOp<L: Law, F: Call> {
    f: F,
    law: PhantomData<L>,
}

/// Contracts see the closure.
impl<L: Law, F: Call> Model for StoredOp<L, F> {
    ghost Value = { F };

    ghost view = { λ op. op.f };

    ghost invariant = { λ op. TakesWords (F.may op.f) × Joins L.join (F.gives op.f) };
}

impl<L: Law, F: Call> StoredOp<L, F> {
    /// Keeps a closure. It takes no memory.
    pub fn new(f: F) -> StoredOp<L, F>
        requires takes_words { TakesWords (F.may f) }
        requires joins { Joins L.join (F.gives f) }
        ensures { result ≡ f }
    {
        StoredOp {
            f,
            law: PhantomData,
        }
    }

    /// What two words of a kind are joined to. It takes no memory.
    pub fn join(&self, kind: Kind, a: u64, b: u64) -> u64
        requires first { IsWord kind a }
        requires second { IsWord kind b }
        ensures { result ≡ L.join kind a b }
    {
        self.f.call(kind, a, b)
    }
}
