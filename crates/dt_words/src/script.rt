//! A script that is run without its replies being written.
ghost use Rattle.std.specs.Prelude.{◌≡◌, IfOk};
ghost use Rattle.dt_words.specs.Script.{HasRun, first_kept};

use dt_kinds::NoMemory;
use dt_machine::Machine;
use dt_script::first_line;
use std::alloc::Global;

/// The machine behind the last line of a script, the text of the first refusal, and whether there was none.
#[derive(Drop)]
pub(crate) struct Ran {
    pub(crate) machine: Machine,
    pub(crate) refusal: Vec<u8>,
    pub(crate) accepted: bool,
}

/// Keeps a reply where it is a refusal, and there was none before.
fn keep_first(
    refusal: &mut Vec<u8>,
    accepted: bool,
    said: bool,
    reply: &[u8],
) -> Result<(), NoMemory>
    ensures { IfOk result (λ _. refusal.new.items ≡ first_kept accepted said refusal.old.items reply.now) }
{
    if accepted && !said {
        refusal.extend_from_slice(reply)?;
    }
    Ok(())
}

/// Runs all lines of a script.
pub(crate) fn run_all(alloc: Global, input: &[u8]) -> Result<Ran, NoMemory>
    ensures { IfOk result (λ ran. HasRun input.now ran.machine ran.refusal.items ran.accepted) }
{
    let mut machine = Machine::new(alloc);
    let mut refusal = Vec::new(alloc);
    let mut reply = Vec::new(alloc);
    let mut rest = input;
    let mut accepted = true;
    'lines: while !rest.is_empty() {
        let (line, after) = first_line(rest);
        reply.clear();
        let said = machine.line(line, &mut reply)?;
        keep_first(&mut refusal, accepted, said, &reply)?;
        accepted &= said;
        rest = after;
    }
    Ok(Ran {
        machine,
        refusal,
        accepted,
    })
}
