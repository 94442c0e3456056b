//! Texts of version 1, read as far as they are looked at: their weights and entries.
ghost use Rattle.std.specs.Prelude.{◌≡◌, ◌↔◌, IsTrue, codes};
ghost use Rattle.dt_spelling.specs.Reading.{item_at};
ghost use Rattle.dt_verdict.specs.Cut.{lines_from};
ghost use Rattle.dt_verdict.specs.Lines.{Gives};
ghost use Rattle.dt_verdict.specs.Old.{IsOld, old_at};
ghost use Rattle.dt_verdict.specs.Reading.{is_word};

use crate::cut::next_line;
use crate::reading::weights;
use crate::stop::Stop;
use crate::whole::map;
use dt_map::FlatMap;
use dt_tree::Weights;
use std::alloc::Global;

/// Whether the first line of a text says version 1.
pub(crate) fn is_old(text: &[u8]) -> bool
    ensures { IsTrue result ↔ IsOld text.now }
{
    text.starts_with(b"dtcert 1\n")
}

/// The line of version 1: where the next one begins.
fn version(text: &[u8], at: usize) -> Result<usize, Stop>
    ensures { Gives text.now (λ x. (tt, lines_from text.now x)) result (item_at (is_word (codes "dtcert 1")) (lines_from text.now at)) }
{
    let Some((line, next)) = next_line(text, at) else {
        return Err(Stop::At(at));
    };
    if line != "dtcert 1".as_bytes() {
        return Err(Stop::At(at));
    }
    Ok(next)
}

/// The weights and the typemap of a text of version 1, and where the line behind the entries begins.
#[tactic(auto, unfolding(dt_spelling::specs::Reading::bind, crate::specs::Old::old_at))]
pub(crate) fn old(alloc: Global, text: &[u8]) -> Result<(Weights, FlatMap, usize), Stop>
    ensures { Gives text.now (λ x. ((x.0, x.1.entries), lines_from text.now x.2)) result (old_at (lines_from text.now 0)) }
{
    let at = version(text, 0)?;
    let (weights, at) = weights(text, at)?;
    let (map, at) = map(alloc, text, at)?;
    Ok((weights, map, at))
}
