//! The natural extents of the fronts of a list of entries.
ghost use Rattle.std.specs.Prelude.{◌≡◌, ◌≤◌, ◌<◌, ◌-ℤ◌, IfOk, Some, pos};
ghost use Rattle.std.specs.List.{All};
ghost use Rattle.dt_kinds.specs.Displacement.{FitsDisp};
ghost use Rattle.dt_map.specs.Bounds as spec;
ghost use Rattle.dt_map.specs.Limits.{EntryFits};
ghost use Rattle.dt_map.specs.Span.{entry_span};
ghost use Rattle.dt_alike.specs.Extents.{AreExtents, IsWithin};

use dt_kinds::NoMemory;
use dt_map::{Entry, natural_end};
use dt_offsets::{Span, joined_spans};
use std::alloc::Global;

/// From where an entry begins to where it ends.
fn entry_span(entry: Entry) -> Span
    ensures { Some result ≡ entry_span entry }
{
    let begin = i128::from(entry.disp);
    Span {
        lb: begin,
        ub: begin + i128::from(entry.kind.size()),
    }
}

/// From the least displacement to the upper bound without marks (MPI 4.1, section 5.1).
fn natural_extent(span: Span, align: u32) -> u64
    requires span { IsWithin span }
    requires some { 0 < align }
    requires few { align ≤ 8 }
    ensures { pos result ≡ spec.natural_end span.lb span.ub align -ℤ span.lb }
{
    let low = span.lb as i64;
    natural_end(low, span.ub as i64, align).abs_diff(low)
}

/// The natural extents of the first entry, of the first two, and so on.
pub(crate) fn extents(alloc: Global, entries: &[Entry]) -> Result<Vec<u64>, NoMemory>
    requires { All EntryFits entries.now }
    ensures { IfOk result (λ extents. AreExtents entries.now extents.items) }
{
    let mut extents = Vec::with_capacity(alloc, entries.len())?;
    let mut span: Option<Span> = None;
    let mut align: u32 = 1;
    'entries: for entry in entries {
        let next = entry_span(*entry);
        let front = joined_spans(span, Some(next)).unwrap_or(next);
        align = align.max(entry.kind.size());
        extents.push(natural_extent(front, align))?;
        span = Some(front);
    }
    Ok(extents)
}
