//! Whole certificates, read from their texts.
ghost use Rattle.std.specs.Prelude.{◌≡◌};
ghost use Rattle.dt_cert.specs.Read.{certificate_in};
ghost use Rattle.dt_verdict.specs.Cut.{lines_from};
ghost use Rattle.dt_verdict.specs.Lines.{Gives};
ghost use Rattle.dt_verdict.specs.Whole.{certificate_at, map_at, text_read};

use crate::cut::next_line;
use crate::reading::{base, entries, number, version, weights};
use crate::stop::Stop;
use crate::tree_line::tree;
use crate::values::values;
use dt_alike::Classes;
use dt_cert::Certificate;
use dt_map::FlatMap;
use std::alloc::Global;

/// The lines of the number of the entries and of the entries.
#[tactic(auto, unfolding(dt_spelling::specs::Reading::bind, crate::specs::Whole::map_at))]
pub(crate) fn map(alloc: Global, text: &[u8], at: usize) -> Result<(FlatMap, usize), Stop>
    ensures { Gives text.now (λ x. (x.0.entries, lines_from text.now x.1)) result (map_at (lines_from text.now at)) }
{
    let (number, at) = number(text, at, b"map", 1024)?;
    let (entries, next) = entries(alloc, text, at, number)?;
    match FlatMap::new(entries, None) {
        Ok(map) => Ok((map, next)),
        Err(_) => Err(Stop::At(at)),
    }
}

/// The lines of a certificate.
#[tactic(auto, unfolding(dt_spelling::specs::Reading::bind, crate::specs::Whole::certificate_at))]
fn certificate(alloc: Global, text: &[u8]) -> Result<(Certificate, usize), Stop>
    ensures { Gives text.now (λ x. (certificate_in x.0, lines_from text.now x.1)) result (certificate_at (lines_from text.now 0)) }
{
    let (version, at) = version(text, 0)?;
    let (weights, at) = weights(text, at)?;
    let (map, at) = map(alloc, text, at)?;
    let (base, at) = base(text, at)?;
    let (tree, at) = tree(alloc, text, at)?;
    let (cost, at) = number(text, at, b"cost", u64::MAX)?;
    let Ok(classes) = Classes::of(alloc, &map) else {
        return Err(Stop::NoMemory);
    };
    let (values, at) = values(alloc, text, at, version, &classes)?;
    let c = Certificate {
        version,
        weights,
        map,
        base,
        tree,
        cost,
        values,
    };
    Ok((c, at))
}

/// A certificate, where a text is all of it.
#[tactic(auto, unfolding(crate::specs::Whole::text_read))]
pub(crate) fn whole(alloc: Global, text: &[u8]) -> Result<Certificate, Stop>
    ensures { Gives text.now certificate_in result (text_read text.now) }
{
    let (c, at) = certificate(alloc, text)?;
    if next_line(text, at).is_none() && text.ends_with(b"\n") {
        Ok(c)
    } else {
        Err(Stop::At(at))
    }
}
