//! `buffer NAME FILL`
ghost use Rattle.std.specs.Prelude.{◌≡◌, ◌↔◌, length, pos, nat_abs, int_lt, true, false, IsTrue, MatchOption, IfOk};
ghost use Rattle.dt_machine.specs.Outcome.{ComesTo};
ghost use Rattle.dt_machine.specs.Refusal.{IsNegativeFill, IsTooLarge, conditions};
ghost use Rattle.dt_machine.specs.Row.{IsFirst, IsClear};
ghost use Rattle.dt_names.specs.Names.{bytes_of};
ghost use Rattle.dt_script.specs.declared.command.Command.TheVariants.{Buffer as BufferCommand};

use crate::limits::{LARGEST_BUFFER, MOST_BUFFERS, MOST_BYTES};
use crate::machine::Machine;
use crate::outcome::{Change, Outcome, done};
use dt_kinds::NoMemory;
use dt_names::{Buffer, Stop};
use dt_reply::Refusal;
use dt_script::{Fill, Name};
use std::alloc::Global;

/// A length, or None where it is negative.
fn not_negative(len: i32) -> Option<usize>
    ensures { MatchOption result (int_lt len (pos 0) ≡ true) (λ n. (int_lt len (pos 0) ≡ false) × (n ≡ nat_abs len)) }
{
    if len < 0 {
        None
    } else {
        Some(len.unsigned_abs() as usize)
    }
}

/// How many bytes a new buffer has, or None where the number is negative.
fn length_of(fill: &Fill) -> Option<usize>
    ensures { MatchOption result (IsNegativeFill fill.now) (λ len. (¬ IsNegativeFill fill.now) × (len ≡ length (bytes_of fill.now))) }
{
    match fill {
        Fill::Zero(len) => not_negative(*len),
        Fill::Count(len) => not_negative(*len),
        Fill::Hex(bytes) => Some(bytes.as_slice().len()),
    }
}

/// The bytes of a new buffer.
fn filled(alloc: Global, fill: &Fill) -> Result<Buffer, NoMemory>
    ensures { IfOk result (λ buffer. buffer ≡ bytes_of fill.now) }
{
    match fill {
        Fill::Zero(len) => Buffer::zeros(alloc, len.unsigned_abs()),
        Fill::Count(len) => Buffer::counting(alloc, len.unsigned_abs()),
        Fill::Hex(bytes) => Buffer::copy_of(alloc, bytes.as_slice()),
    }
}

impl Machine {
    /// Whether so many bytes more are too many, in one buffer or all together.
    fn is_too_large(&self, len: usize) -> bool
        ensures { IsTrue result ↔ IsTooLarge self.now len }
    {
        len > LARGEST_BUFFER || self.bytes_held() > MOST_BYTES - len as u64
    }

    /// Why a buffer isn't made.
    fn refused_buffer(&self, name: &Name, fill: &Fill) -> Option<Refusal>
        ensures { MatchOption result (IsClear (conditions self.now (BufferCommand name.now fill.now))) (IsFirst (conditions self.now (BufferCommand name.now fill.now))) }
    {
        if self.is_buffer_taken(name) {
            return Some(Refusal::NameTaken);
        }
        let Some(len) = length_of(fill) else {
            return Some(Refusal::BadArgument);
        };
        if self.count_of_buffers() >= MOST_BUFFERS {
            Some(Refusal::TooManyNames)
        } else if self.is_too_large(len) {
            Some(Refusal::TooLarge)
        } else {
            None
        }
    }

    /// `buffer NAME FILL`
    pub(crate) fn fill(&self, name: &Name, fill: &Fill) -> Result<Outcome, Stop>
        ensures { ComesTo self.now (BufferCommand name.now fill.now) result }
    {
        if let Some(refusal) = self.refused_buffer(name, fill) {
            return Err(Stop::Refused(refusal));
        }
        let name = name.copied()?;
        let buffer = filled(self.alloc, fill)?;
        Ok(done(Change::AddBuffer { name, buffer }))
    }
}
