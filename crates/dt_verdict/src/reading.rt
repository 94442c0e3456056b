//! The lines of a certificate, read from a text one after another. Each reader answers what it read and where the next line begins.
ghost use Rattle.std.specs.Prelude.{◌≡◌, ◌&&◌};
ghost use Rattle.dt_map.specs.Bounds.{end_of};
ghost use Rattle.dt_spelling.specs.Reading.{item_at};
ghost use Rattle.dt_verdict.specs.Cut.{lines_from};
ghost use Rattle.dt_cert.specs.Read.{version_of};
ghost use Rattle.dt_verdict.specs.Lines.{Gives, entry_in, is_near, entries_at, line_as, version_in};
ghost use Rattle.dt_verdict.specs.Reading.{base_at, number_at, weights_at};

use crate::cut::next_line;
use crate::line;
use crate::stop::Stop;
use dt_cert::Version;
use dt_map::Entry;
use dt_tree::Weights;
use std::alloc::Global;

/// The line of six weights.
pub(crate) fn weights(text: &[u8], at: usize) -> Result<(Weights, usize), Stop>
    ensures { Gives text.now (λ x. (x.0, lines_from text.now x.1)) result (item_at (line_as weights_at) (lines_from text.now at)) }
{
    let Some((line, next)) = next_line(text, at) else {
        return Err(Stop::At(at));
    };
    match line::weights(line) {
        Ok(w) => Ok((w, next)),
        Err(_) => Err(Stop::At(at)),
    }
}

/// A line of a name and a number of at most `most`.
pub(crate) fn number(text: &[u8], at: usize, name: &[u8], most: u64) -> Result<(u64, usize), Stop>
    ensures { Gives text.now (λ x. (x.0, lines_from text.now x.1)) result (item_at (line_as (number_at name.now most)) (lines_from text.now at)) }
{
    let Some((line, next)) = next_line(text, at) else {
        return Err(Stop::At(at));
    };
    match line::number(line, name, most) {
        Ok(number) => Ok((number, next)),
        Err(_) => Err(Stop::At(at)),
    }
}

/// The line of a base.
pub(crate) fn base(text: &[u8], at: usize) -> Result<(i64, usize), Stop>
    ensures { Gives text.now (λ x. (x.0, lines_from text.now x.1)) result (item_at (line_as base_at) (lines_from text.now at)) }
{
    let Some((line, next)) = next_line(text, at) else {
        return Err(Stop::At(at));
    };
    match line::base(line) {
        Ok(base) => Ok((base, next)),
        Err(_) => Err(Stop::At(at)),
    }
}

/// The first line: which version a text is.
pub(crate) fn version(text: &[u8], at: usize) -> Result<(Version, usize), Stop>
    ensures { Gives text.now (λ x. (version_of x.0, lines_from text.now x.1)) result (item_at version_in (lines_from text.now at)) }
{
    let Some((line, next)) = next_line(text, at) else {
        return Err(Stop::At(at));
    };
    if line == "dtcert 2".as_bytes() {
        return Ok((Version::Segments, next));
    }
    if line == "dtcert 3".as_bytes() {
        return Ok((Version::Classes, next));
    }
    Err(Stop::At(at))
}

/// Whether a number of bytes is at most 2^60 in absolute value.
fn is_near(x: i128) -> bool
    ensures { result ≡ is_near x }
{
    -1_152_921_504_606_846_976 <= x && x <= 1_152_921_504_606_846_976
}

/// Whether an entry begins and ends in range.
fn fits(entry: Entry) -> bool
    ensures { result ≡ (is_near entry.disp && is_near (end_of entry)) }
{
    let start = i128::from(entry.disp);
    is_near(start) && is_near(start + i128::from(entry.kind.size()))
}

/// The line of an entry in range.
#[tactic(auto, unfolding(crate::specs::Lines::entry_in))]
pub(crate) fn entry(text: &[u8], at: usize) -> Result<(Entry, usize), Stop>
    ensures { Gives text.now (λ x. (x.0, lines_from text.now x.1)) result (item_at entry_in (lines_from text.now at)) }
{
    let Some((line, next)) = next_line(text, at) else {
        return Err(Stop::At(at));
    };
    match line::entry(line) {
        Ok(entry) => {
            if fits(entry) {
                Ok((entry, next))
            } else {
                Err(Stop::At(at))
            }
        }
        Err(_) => Err(Stop::At(at)),
    }
}

/// So many lines of entries.
#[tactic(auto, unfolding(dt_spelling::specs::Reading::bind))]
pub(crate) fn entries(
    alloc: Global,
    text: &[u8],
    at: usize,
    number: u64,
) -> Result<(Vec<Entry>, usize), Stop>
    ensures { Gives text.now (λ x. (x.0.items, lines_from text.now x.1)) result (entries_at number (lines_from text.now at)) }
{
    let mut entries = Vec::new(alloc);
    let mut next = at;
    'entries: for _ in 0..number {
        let (entry, after) = match entry(text, next) {
            Ok(found) => found,
            Err(stop) => return Err(stop),
        };
        entries.push(entry)?;
        next = after;
    }
    Ok((entries, next))
}
