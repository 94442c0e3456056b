ghost use Rattle.std.specs.Prelude.{◌≡◌, IfOk, IfSome};
ghost use Rattle.std.specs.List.{list_all};
ghost use Rattle.dt_script.specs.Words.{words_of};
ghost use Rattle.dt_script.specs.Command.{HasRanks};
ghost use Rattle.dt_script.specs.Line.{IsRead, begins_with_hash, is_passed_over, is_text, is_text_byte};

use crate::command::Command;
use crate::forms::command;
use crate::words::{is_blank, next_word};
use std::alloc::{AllocError, Global};
use thiserror::Error;

/// Why a line gives no command.
#[derive(Clone, Copy, Debug, PartialEq, Eq, Error)]
pub enum LineFault {
    #[error("the line is in no line form")]
    Syntax,
    #[error("memory ran out")]
    NoMemory,
}

impl From<AllocError> for LineFault {
    ghost use Rattle.std.specs.Prelude.{◌≡◌};
    ghost use Rattle.dt_script.specs.declared.line.LineFault.TheVariants.{NoMemory as WithoutMemory};

    ghost from_gives = { λ _ fault. fault ≡ WithoutMemory };

    fn from(_error: AllocError) -> LineFault {
        LineFault::NoMemory
    }
}

/// Whether a byte may stand in a line that is no comment.
fn is_text_byte(b: u8) -> bool
    ensures { result ≡ is_text_byte b }
{
    is_blank(b) || (b'!'..=b'~').contains(&b)
}

fn is_text(line: &[u8]) -> bool
    ensures { result ≡ is_text line.now }
{
    line.iter().all(|b| is_text_byte(*b))
}

fn begins_with_hash(word: &[u8]) -> bool
    ensures { result ≡ begins_with_hash word.now }
{
    match word {
        [b, ..] => *b == b'#',
        [] => false,
    }
}

/// Whether a line is blank or a comment.
fn is_passed_over(line: &[u8]) -> bool
    ensures { result ≡ is_passed_over (words_of line.now) }
{
    match next_word(line) {
        Some((word, _)) => begins_with_hash(word),
        None => true,
    }
}

/// The command of a line, without its end: None for a blank or comment line, and a syntax fault for every other line
/// that is in no line form. A line means one thing alone (`laws::one_meaning`), and a reduction of ranks has one. Memory is taken
/// for lists and bytes alone.
pub fn parse_line(alloc: Global, line: &[u8]) -> Result<Option<Command>, LineFault>
    ensures meaning { IsRead line.now result }
    ensures ranks { IfOk result (λ found. IfSome found HasRanks) }
{
    if is_passed_over(line) {
        return Ok(None);
    }
    if !is_text(line) {
        return Err(LineFault::Syntax);
    }
    match command(alloc, line) {
        Ok(command) => Ok(Some(command)),
        Err(fault) => Err(fault),
    }
}
