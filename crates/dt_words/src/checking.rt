//! `check`: whether a text shows that its tree is least.
ghost use Rattle.std.specs.Prelude.{◌≡◌, ◌≢◌, ◌++◌, ◌∷◌, [], IfOk, OnOk};
ghost use Rattle.dt_verdict.specs.declared.verdict.NotShown.TheVariants.{NoMemory as WithoutMemory};
ghost use Rattle.dt_words.specs.Checked.{IsChecked, line_with, spaced_number, text_of_reason};

use crate::Said;
use dt_kinds::NoMemory;
use dt_verdict::NotShown;
use itoa::Buffer;
use std::alloc::Global;

/// Appends a space and a number.
pub(crate) fn push_number(line: &mut Vec<u8>, number: u64) -> Result<(), NoMemory>
    ensures { OnOk result (line.new.items ≡ line.old.items ++ spaced_number number) }
{
    let mut digits = Buffer::new();
    line.extend_from_slice(b" ")?;
    line.extend_from_slice(digits.format(number).as_bytes())?;
    Ok(())
}

/// The line of some words and a number.
fn line(alloc: Global, words: &[u8], number: u64) -> Result<Vec<u8>, NoMemory>
    ensures { IfOk result (λ line. line.items ≡ line_with words.now (number ∷ [])) }
{
    let mut line = Vec::from_slice(alloc, words)?;
    push_number(&mut line, number)?;
    line.extend_from_slice(b"\n")?;
    Ok(line)
}

/// The line of some words and two numbers.
fn line_of_two(alloc: Global, words: &[u8], one: u64, other: u64) -> Result<Vec<u8>, NoMemory>
    ensures { IfOk result (λ line. line.items ≡ line_with words.now (one ∷ other ∷ [])) }
{
    let mut line = Vec::from_slice(alloc, words)?;
    push_number(&mut line, one)?;
    push_number(&mut line, other)?;
    line.extend_from_slice(b"\n")?;
    Ok(line)
}

/// The line of a reason why nothing is shown.
pub(crate) fn reason_line(alloc: Global, reason: NotShown) -> Result<Vec<u8>, NoMemory>
    ensures { IfOk result (λ line. (reason ≢ WithoutMemory) × (line.items ≡ text_of_reason reason)) }
{
    match reason {
        NotShown::Syntax { line: at } => line(alloc, b"not shown syntax", at),
        NotShown::WrongMap { at } => line(alloc, b"not shown map", at),
        NotShown::WrongCost { stated, found } => {
            line_of_two(alloc, b"not shown cost", stated, found)
        }
        NotShown::LowFails { from, to } => {
            line_of_two(alloc, b"not shown low", u64::from(from), u64::from(to))
        }
        NotShown::RootBelow { low, cost } => line_of_two(alloc, b"not shown root", low, cost),
        NotShown::NoMemory => Err(NoMemory),
    }
}

/// `least COST` for a text that shows that its tree is least, which no tree of its typemap costs less than; else `not shown` and the first
/// reason.
pub fn check(alloc: Global, input: &[u8]) -> Result<Said, NoMemory>
    ensures { IfOk result (λ said. IsChecked input.now said.text.items said.accepted) }
{
    match dt_verdict::check(alloc, input) {
        Ok(cost) => {
            let text = line(alloc, b"least", cost)?;
            Ok(Said {
                text,
                accepted: true,
            })
        }
        Err(reason) => {
            let text = reason_line(alloc, reason)?;
            Ok(Said {
                text,
                accepted: false,
            })
        }
    }
}
