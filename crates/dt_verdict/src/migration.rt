//! Texts of certificates of any version, made texts of version 3.
ghost use Rattle.std.specs.Prelude.{◌≡◌, IfOk, MatchResult};
ghost use Rattle.dt_cert.specs.Certificate.{BySegments};
ghost use Rattle.dt_cert.specs.Read.{certificate_in, version_of};
ghost use Rattle.dt_cert.specs.Shown.{IsShown};
ghost use Rattle.dt_verdict.specs.Migrated.{IsFromFirst, IsMigrated, IsNotMigrated, IsOldFault, by_classes};
ghost use Rattle.dt_verdict.specs.Old.{IsOld};

use crate::classed::values_by_classes;
use crate::copy::{push_lines, push_values};
use crate::old::{is_old, old};
use crate::read::line_number;
use crate::stop::Stop;
use crate::verdict::{NotShown, shown};
use dt_alike::Classes;
use dt_cert::{Certificate, Version, write_cert};
use dt_kinds::NoMemory;
use dt_normal::normalise;
use std::alloc::Global;

/// From version 1: the least tree of its weights and entries is looked for anew.
fn from_first(alloc: Global, text: &[u8]) -> Result<Vec<u8>, NotShown>
    requires old { IsOld text.now }
    ensures { MatchResult result (λ now. IsFromFirst text.now now.items) (λ fault. IsOldFault text.now fault) }
{
    match old(alloc, text) {
        Ok((weights, map, _)) => {
            let Ok(best) = normalise(alloc, &map, &weights) else {
                return Err(NotShown::NoMemory);
            };
            Ok(write_cert(alloc, &map, &weights, &best)?)
        }
        Err(Stop::At(at)) => Err(NotShown::Syntax {
            line: line_number(text, at),
        }),
        Err(Stop::NoMemory) => Err(NotShown::NoMemory),
    }
}

/// From version 2: the lines between the first one and the values stay as they are.
fn from_second(alloc: Global, text: &[u8], c: &Certificate) -> Result<Vec<u8>, NoMemory>
    requires shown { IsShown text.now (certificate_in c.now) }
    requires version { version_of c.now.version ≡ BySegments }
    ensures { IfOk result (λ now. IsShown now.items (by_classes (certificate_in c.now))) }
{
    let classes = Classes::of(alloc, &c.map)?;
    let values = values_by_classes(alloc, &classes, &c.values)?;
    let mut now = Vec::new(alloc);
    now.extend_from_slice(b"dtcert 3\n")?;
    push_lines(&mut now, text, 9, c.map.entries().len() + 5)?;
    push_values(&mut now, &values)?;
    now.extend_from_slice(b"end\n")?;
    Ok(now)
}

/// Makes the text of a certificate of any version one of version 3 (`dtcert 3`).
///
/// Of a text of version 1 (`dtcert 1`) the weights and the entries are read, and nothing behind them, since it claims less: the answer is the
/// certificate of a least tree that is found anew. Where one of these lines is wrong or missing, the answer is `Syntax` with the first such
/// line. Every other text must show a certificate (see `check`), else the answer is the reason why it doesn't. One of version 2 keeps its
/// weights, typemap, base, tree and cost, and each class has the greatest value of its segments, where that is above 0. One of version 3 is
/// the answer as it is. `NoMemory` where memory ran out.
pub fn migrate(alloc: Global, text: &[u8]) -> Result<Vec<u8>, NotShown>
    ensures { MatchResult result (λ now. IsMigrated text.now now.items) (λ fault. IsNotMigrated text.now fault) }
{
    if is_old(text) {
        return from_first(alloc, text);
    }
    let c = shown(alloc, text)?;
    let now = match c.version {
        Version::Segments => from_second(alloc, text, &c)?,
        Version::Classes => text.to_vec(alloc)?,
    };
    Ok(now)
}
