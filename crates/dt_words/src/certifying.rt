//! `certify NAME`: the certificate of a type of a script.
ghost use Rattle.std.specs.Prelude.{IfOk};
ghost use Rattle.dt_words.specs.Certified.{IsCertified};

use crate::Said;
use crate::certificate::certificate;
use crate::script::run_all;
use dt_kinds::NoMemory;
use dt_names::Stop;
use dt_reply::refusal_line;
use dt_script::Name;
use std::alloc::Global;

/// Runs a script without writing its replies, and then writes the certificate of the type of a name under the last weights. Where a reply
/// is a refusal, the first one is written in its place; where none is, that of `normalise NAME` behind the last line, if it would be refused.
pub fn certify(alloc: Global, input: &[u8], name: &Name) -> Result<Said, NoMemory>
    ensures { IfOk result (λ said. IsCertified input.now name.now said.text.items said.accepted) }
{
    let ran = run_all(alloc, input)?;
    if !ran.accepted {
        return Ok(Said {
            text: ran.refusal,
            accepted: false,
        });
    }
    match certificate(alloc, &ran.machine, name) {
        Ok(text) => Ok(Said {
            text,
            accepted: true,
        }),
        Err(Stop::Refused(refusal)) => {
            let text = refusal_line(alloc, refusal)?;
            Ok(Said {
                text,
                accepted: false,
            })
        }
        Err(Stop::NoMemory) => Err(NoMemory),
    }
}
