//! The lines of values, up to the line `end`.
ghost use Rattle.std.specs.Prelude.{◌≡◌, ◌≤◌, ◌<◌, length};
ghost use Rattle.dt_cert.specs.Read.{version_of};
ghost use Rattle.dt_verdict.specs.Cut.{lines_from};
ghost use Rattle.dt_verdict.specs.Lines.{Gives};
ghost use Rattle.dt_verdict.specs.Values.{before_all, goes_on, is_later, is_own, value_behind, value_name, values_at};

use crate::cut::next_line;
use crate::line;
use crate::stop::Stop;
use dt_alike::Classes;
use dt_cert::Version;
use dt_normal::Low;
use std::alloc::Global;

/// The first word of the line of a value.
fn value_name(version: Version) -> &'static [u8]
    ensures { result.now ≡ value_name (version_of version) }
{
    match version {
        Version::Segments => b"low",
        Version::Classes => b"class",
    }
}

/// Whether a value's segment comes after the last one's: it is longer, or as long and with a later start.
fn is_later(last: Low, a: Low) -> bool
    ensures { result ≡ is_later last a }
{
    let before = last.to.saturating_sub(last.from);
    let len = a.to.saturating_sub(a.from);
    before < len || (before == len && last.from < a.from)
}

/// Whether it is the first of its class, where values are given to classes.
fn is_own(version: Version, classes: &Classes, a: Low) -> bool
    requires some { a.from < a.to }
    requires inside { a.to ≤ length classes.now }
    ensures { result ≡ is_own (version_of version) classes.now a }
{
    match version {
        Version::Segments => true,
        Version::Classes => classes.first(a.from, a.to) == a.from,
    }
}

/// Whether a value can stand behind the last one.
fn goes_on(version: Version, classes: &Classes, last: Low, a: Low) -> bool
    ensures { result ≡ goes_on (version_of version) classes.now last a }
{
    a.from < a.to && a.to <= classes.len() && is_later(last, a) && is_own(version, classes, a)
}

/// The line of a value behind the last one.
#[tactic(auto, unfolding(crate::specs::Values::value_behind))]
fn value_behind(line: &[u8], version: Version, classes: &Classes, last: Low) -> Option<Low>
    ensures { result ≡ value_behind (version_of version) classes.now last line.now }
{
    let Ok(a) = line::value(line, value_name(version)) else {
        return None;
    };
    if goes_on(version, classes, last, a) {
        Some(a)
    } else {
        None
    }
}

/// The values, and the line `end` behind them.
pub(crate) fn values(
    alloc: Global,
    text: &[u8],
    at: usize,
    version: Version,
    classes: &Classes,
) -> Result<(Vec<Low>, usize), Stop>
    ensures { Gives text.now (λ x. (x.0.items, lines_from text.now x.1)) result (values_at (version_of version) classes.now before_all (lines_from text.now at)) }
{
    let mut values = Vec::new(alloc);
    let mut last = Low {
        from: 0,
        to: 0,
        low: 0,
    };
    let mut next = at;
    'values: while let Some((line, after)) = next_line(text, next) {
        if line == "end".as_bytes() {
            return Ok((values, after));
        }
        let Some(value) = value_behind(line, version, classes, last) else {
            return Err(Stop::At(next));
        };
        values.push(value)?;
        last = value;
        next = after;
    }
    Err(Stop::At(next))
}
