//! The certificate of a type of a script.
ghost use Rattle.std.specs.Prelude.{MatchResult};
ghost use Rattle.dt_words.specs.Certified.{IsCertificateOf, IsWithout};

use dt_cert::write_cert;
use dt_machine::Machine;
use dt_machine::limits::MOST_SOUGHT;
use dt_names::Stop;
use dt_normal::{NormalFault, normalise};
use dt_reply::Refusal;
use dt_script::Name;
use dt_type::FlattenFault;
use std::alloc::Global;

/// The certificate of the type that a word stands for, under the weights in force.
pub(crate) fn certificate(alloc: Global, machine: &Machine, name: &Name) -> Result<Vec<u8>, Stop>
    ensures { MatchResult result (λ text. IsCertificateOf machine.now name.now text.items) (IsWithout machine.now name.now) }
{
    let kept = match machine.kept(name) {
        Ok(kept) => kept,
        Err(stop) => return Err(stop),
    };
    let map = match kept.ty.flatten(alloc, MOST_SOUGHT) {
        Ok(map) => map,
        Err(FlattenFault::TooMany) => return Err(Stop::Refused(Refusal::TooManyEntries)),
        Err(FlattenFault::NoMemory) => return Err(Stop::NoMemory),
    };
    let weights = machine.weights();
    let best = match normalise(alloc, &map, &weights) {
        Ok(best) => best,
        Err(NormalFault::TooMany) => return Err(Stop::Refused(Refusal::TooManyEntries)),
        Err(NormalFault::NoMemory) => return Err(Stop::NoMemory),
    };
    let text = write_cert(alloc, &map, &weights, &best)?;
    Ok(text)
}
