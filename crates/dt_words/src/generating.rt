//! `gen N`: what came of the script of a number.
ghost use Rattle.std.specs.Prelude.{◌≡◌, ◌++◌, IfOk, OnOk};
ghost use Rattle.dt_words.specs.Checked.{spaced_number};
ghost use Rattle.dt_words.specs.Generated.{IsGenerated, text_of_totals};

use crate::Said;
use crate::checking::push_number;
use crate::script::run_all;
use dt_kinds::NoMemory;
use dt_machine::Totals;
use std::alloc::Global;

/// Appends what was counted, behind a word that says what.
fn push_counted(line: &mut Vec<u8>, word: &[u8], number: u64) -> Result<(), NoMemory>
    ensures { OnOk result (line.new.items ≡ line.old.items ++ word.now ++ spaced_number number) }
{
    line.extend_from_slice(word)?;
    push_number(line, number)
}

/// The line of what was counted in the script of a number.
fn totals_line(alloc: Global, n: u32, totals: Totals) -> Result<Vec<u8>, NoMemory>
    ensures { IfOk result (λ line. line.items ≡ text_of_totals n totals) }
{
    let mut line = Vec::new(alloc);
    push_counted(&mut line, b"gen", u64::from(n))?;
    push_counted(&mut line, b" commands", totals.commands)?;
    push_counted(&mut line, b" taken", totals.taken)?;
    push_counted(&mut line, b" given", totals.given)?;
    push_counted(&mut line, b" elements", totals.elements)?;
    push_counted(&mut line, b" cost", totals.cost)?;
    line.extend_from_slice(b"\n")?;
    Ok(line)
}

/// Runs the script of a number without writing its replies, and tells what was counted: `gen N commands C taken T given G elements E cost K`.
pub fn generated(alloc: Global, n: u32) -> Result<Said, NoMemory>
    ensures { IfOk result (λ said. IsGenerated n said.text.items said.accepted) }
{
    let script = dt_gen::generate(alloc, n)?;
    let ran = run_all(alloc, &script)?;
    let text = totals_line(alloc, n, ran.machine.totals())?;
    Ok(Said {
        text,
        accepted: true,
    })
}
