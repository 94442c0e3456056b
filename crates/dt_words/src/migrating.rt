//! `migrate`: a certificate of any version, in version 3.
ghost use Rattle.std.specs.Prelude.{IfOk};
ghost use Rattle.dt_words.specs.Moved.{IsMoved};

use crate::Said;
use crate::checking::reason_line;
use dt_kinds::NoMemory;
use std::alloc::Global;

/// The text of a certificate in version 3: that of version 3 as it is, that of version 2 with the greatest value of each class, and of
/// version 1 one with the same weights and the same typemap, found anew. Else `not shown` and the reason, as `check` writes it.
pub fn migrate(alloc: Global, input: &[u8]) -> Result<Said, NoMemory>
    ensures { IfOk result (λ said. IsMoved input.now said.text.items said.accepted) }
{
    match dt_verdict::migrate(alloc, input) {
        Ok(text) => Ok(Said {
            text,
            accepted: true,
        }),
        Err(reason) => {
            let text = reason_line(alloc, reason)?;
            Ok(Said {
                text,
                accepted: false,
            })
        }
    }
}
