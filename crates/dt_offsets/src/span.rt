//! Spans of offsets, by arithmetic on the few numbers that say the offsets.
ghost use Rattle.std.specs.Prelude.{◌≡◌, ◌+◌, ◌*◌, ◌^◌, ◌<◌, nat_abs};
ghost use Rattle.dt_offsets.specs.Near.{IsFactor, AreTurns, IsNearSpan};
ghost use Rattle.dt_offsets.specs.Offsets.{row_offsets, turn_offsets};
ghost use Rattle.dt_offsets.specs.Span.{joined_marks, reach_of, stretched as stretched_by};

use crate::place::along;
use crate::turns::Turns;
use std::marker::Model;

/// A least and a greatest number of bytes, wide enough for every sum that bounds are made of. Definitions write it as marks.
#[derive(Clone, Copy)]
pub struct Span {
    pub lb: i128,
    pub ub: i128,
}

impl Model for Span {
    ghost use Rattle.dt_offsets.specs.declared.marks.Marks.{Marks};

    ghost Value = { Marks };

    ghost view = { λ a. record { lb = a.lb; ub = a.ub } };

    ghost inverse = { λ m. record { lb = m.lb; ub = m.ub } };
}

/// The span around two others.
pub fn joined_spans(a: Option<Span>, b: Option<Span>) -> Option<Span>
    ensures { result ≡ joined_marks a b }
{
    match (a, b) {
        (None, b) => b,
        (Some(a), None) => Some(a),
        (Some(a), Some(b)) => Some(Span {
            lb: a.lb.min(b.lb),
            ub: a.ub.max(b.ub),
        }),
    }
}

/// The span of all sums of a number within one span and one within the other.
pub fn stretched(reach: Option<Span>, span: Option<Span>) -> Option<Span>
    requires reach { IsNearSpan reach }
    requires span { IsNearSpan span }
    ensures { result ≡ stretched_by reach span }
{
    match (reach, span) {
        (Some(reach), Some(span)) => Some(Span {
            lb: span.lb + reach.lb,
            ub: span.ub + reach.ub,
        }),
        _ => None,
    }
}

/// The span of copies in a row.
pub fn row_span(first: i128, copies: u64, step: i128) -> Option<Span>
    requires step { IsFactor step }
    requires near { nat_abs first + copies * 2 ^ 93 < 2 ^ 126 }
    ensures { result ≡ reach_of (row_offsets first copies step) }
{
    if copies == 0 {
        return None;
    }
    let last = along(first, copies - 1, step);
    Some(Span {
        lb: first.min(last),
        ub: first.max(last),
    })
}

/// The span of the offsets of turns: that of their whole blocks, and that of the turns in the last one.
pub fn turns_span(turns: &Turns) -> Option<Span>
    requires { AreTurns turns.now }
    ensures { result ≡ reach_of (turn_offsets turns.now) }
{
    let blocks = turns.count / turns.block;
    let rest = turns.count % turns.block;
    let last = along(turns.first, blocks, turns.jump);
    let outer = row_span(turns.first, blocks, turns.jump);
    let inner = row_span(0, turns.block, turns.step);
    joined_spans(stretched(outer, inner), row_span(last, rest, turns.step))
}
