//! What bounds are made of, of a typemap that is never listed.
ghost use Rattle.std.specs.Prelude.{◌≡◌, ◌≤◌, ◌↔◌, IsTrue, IsSome, IfSome, [], ◌∷◌, pos};
ghost use Rattle.dt_map.specs.Bounds.{bounds_of};
ghost use Rattle.dt_map.specs.Digest.{capped_sums, digest_of};
ghost use Rattle.dt_map.specs.Limits.{AreInRange, MarksFit};
ghost use Rattle.dt_map.specs.Summary as spec;
ghost use Rattle.dt_map.specs.Summary.{no_summary, ends_or_zero, bounds_from, true_span};
ghost use Rattle.dt_map.specs.Typemap.{Marked};
ghost use Rattle.dt_offsets.specs.Near.{IsNearSpan};

use crate::bounds::{Bounds, SIZE_MAX, natural_end};
use dt_kinds::{Kind, fits_disp};
use dt_offsets::{Marks, Reach, Span, joined_spans, stretched};
use std::marker::Model;

/// Sizes and number of entries, each up to the greatest `u64`, the alignment, the span from the least displacement to the greatest
/// end, and the marks.
#[derive(Clone, Copy)]
pub struct Digest {
    size: u64,
    ext_size: u64,
    elements: u64,
    align: u32,
    span: Option<Span>,
    marks: Option<Span>,
}

impl Model for Digest {
    ghost use Rattle.dt_map.specs.Summary.{Summary};

    ghost Value = { Summary };

    ghost view = { λ d. record { size = d.size; ext_size = d.ext_size; elements = d.elements; align = d.align; span = d.span; marks = d.marks } };

    ghost inverse = { λ s. record { size = s.size; ext_size = s.ext_size; elements = s.elements; align = s.align; span = s.span; marks = s.marks } };
}

/// Marks as wide numbers.
fn wide(marks: Option<Marks>) -> Option<Span>
    ensures { result ≡ marks }
{
    match marks {
        None => None,
        Some(marks) => Some(Span {
            lb: i128::from(marks.lb),
            ub: i128::from(marks.ub),
        }),
    }
}

/// The least displacement and the greatest end, where there is an entry.
fn true_span(bounds: &Bounds) -> Option<Span>
    ensures { result ≡ true_span bounds.now }
{
    if bounds.elements == 0 {
        return None;
    }
    Some(Span {
        lb: i128::from(bounds.true_lb),
        ub: i128::from(bounds.true_ub),
    })
}

/// The ends of a span, 0 where there is none.
fn ends_or_zero(span: Option<Span>) -> Span
    ensures { result ≡ ends_or_zero span }
{
    match span {
        None => Span { lb: 0, ub: 0 },
        Some(span) => span,
    }
}

/// Whether a span is in range.
fn fits(span: Span) -> bool
    ensures { IsTrue result ↔ MarksFit (Some span) }
{
    fits_disp(span.lb) && fits_disp(span.ub)
}

/// A span in range, as marks.
fn narrow(span: Span) -> Marks
    requires { MarksFit (Some span) }
    ensures { result ≡ span }
{
    Marks {
        lb: span.lb as i64,
        ub: span.ub as i64,
    }
}

impl Digest {
    /// Of no entries and no marks.
    pub fn none() -> Digest
        ensures { result ≡ no_summary }
    {
        Digest {
            size: 0,
            ext_size: 0,
            elements: 0,
            align: 1,
            span: None,
            marks: None,
        }
    }

    /// Of a kind at 0.
    pub fn of_kind(kind: Kind) -> Digest
        ensures { result ≡ digest_of (record { entries = (record { kind = kind; disp = pos 0 }) ∷ []; marks = None }) }
    {
        let size = kind.size();
        Digest {
            size: u64::from(size),
            ext_size: u64::from(kind.ext_size()),
            elements: 1,
            align: size,
            span: Some(Span {
                lb: 0,
                ub: i128::from(size),
            }),
            marks: None,
        }
    }

    /// Of a typemap in range, from its bounds and its marks.
    pub fn of_bounds(bounds: &Bounds, marks: Option<Marks>) -> Digest
        requires { AreInRange bounds.now }
        ensures { (m : Marked) → bounds.now ≡ bounds_of m → marks ≡ m.marks → result ≡ digest_of m }
    {
        Digest {
            size: bounds.size,
            ext_size: bounds.ext_size,
            elements: bounds.elements,
            align: bounds.align,
            span: true_span(bounds),
            marks: wide(marks),
        }
    }

    /// Of copies of one typemap, by the reach of their offsets.
    pub fn copied(self, reach: Reach) -> Digest
        requires reach { IsNearSpan reach.span }
        requires span { IsNearSpan self.span }
        requires marks { IsNearSpan self.marks }
        ensures { result ≡ capped_sums (spec.copied reach.span reach.copies self) }
    {
        Digest {
            size: reach.copies.saturating_mul(self.size),
            ext_size: reach.copies.saturating_mul(self.ext_size),
            elements: reach.copies.saturating_mul(self.elements),
            align: if reach.copies == 0 { 1 } else { self.align },
            span: stretched(reach.span, self.span),
            marks: stretched(reach.span, self.marks),
        }
    }

    /// Of two typemaps, one after the other.
    pub fn joined(self, next: Digest) -> Digest
        ensures { result ≡ capped_sums (spec.joined self next) }
    {
        Digest {
            size: self.size.saturating_add(next.size),
            ext_size: self.ext_size.saturating_add(next.ext_size),
            elements: self.elements.saturating_add(next.elements),
            align: self.align.max(next.align),
            span: joined_spans(self.span, next.span),
            marks: joined_spans(self.marks, next.marks),
        }
    }

    /// The same with these marks, or with none.
    pub fn with_marks(self, marks: Option<Marks>) -> Digest
        ensures { result ≡ record self { marks = marks } }
    {
        Digest {
            marks: wide(marks),
            ..self
        }
    }

    /// The marks, which are in range.
    pub fn marks(&self) -> Option<Marks>
        requires { MarksFit self.now.marks }
        ensures { result ≡ self.now.marks }
    {
        match self.marks {
            None => None,
            Some(marks) => Some(narrow(marks)),
        }
    }

    /// The bounds without listing an entry, where they and the size are in range: the marks, or the true bounds with the upper one
    /// rounded.
    pub fn bounds(&self) -> Option<Bounds>
        requires { 1 ≤ self.now.align }
        ensures value { IfSome result (λ b. b ≡ bounds_from self.now) }
        ensures in_range { IsSome result ↔ AreInRange (bounds_from self.now) }
    {
        let ends = ends_or_zero(self.span);
        if self.size > SIZE_MAX || !fits(ends) {
            return None;
        }
        let ends = narrow(ends);
        let outer = outer_ends(ends, self.align, self.marks);
        if !fits(outer) {
            return None;
        }
        let outer = narrow(outer);
        Some(Bounds {
            size: self.size,
            ext_size: self.ext_size,
            elements: self.elements,
            align: self.align,
            true_lb: ends.lb,
            true_ub: ends.ub,
            lb: outer.lb,
            ub: outer.ub,
        })
    }
}

/// The bounds: the marks, or the true bounds with the upper one rounded.
fn outer_ends(ends: Marks, align: u32, marks: Option<Span>) -> Span
    requires ends { MarksFit (Some ends) }
    requires least { 1 ≤ align }
    ensures { result ≡ spec.outer_ends ends align marks }
{
    match marks {
        Some(marks) => marks,
        None => Span {
            lb: i128::from(ends.lb),
            ub: i128::from(natural_end(ends.lb, ends.ub, align)),
        },
    }
}
