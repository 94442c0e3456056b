//! The turns of a round: bytes are taken from its pack session, and as many bytes given to its unpack session.
ghost use Rattle.std.specs.Prelude.{◌≡◌, ◌≤◌, ◌+◌, ◌++◌, OnOk, IfOk};
ghost use Rattle.dt_gen.specs.Script.{piece, turn_lines, turns_at};

use crate::draws::Draws;
use crate::text::{push_name, push_number, push_word};
use dt_kinds::NoMemory;
use std::alloc::Global;

/// The bytes that the round of a number gives, so many from some byte on.
fn piece(alloc: Global, number: u64, at: u64, len: u64) -> Result<Vec<u8>, NoMemory>
    requires { (number ≤ 99) × (at + len ≤ 1125899906842624) }
    ensures { IfOk result (λ bytes. bytes.items ≡ piece number at len) }
{
    let mut bytes = Vec::new(alloc);
    'bytes: for i in at..at + len {
        bytes.push(((7 * i + number) % 256) as u8)?;
    }
    Ok(bytes)
}

/// Appends the lines of a turn.
#[tactic(auto, unfolding(crate::specs::Script::line, crate::specs::Script::turn_lines))]
fn push_turn(
    alloc: Global,
    out: &mut Vec<u8>,
    number: u64,
    asked: u64,
    at: u64,
    len: u64,
) -> Result<(), NoMemory>
    requires { (number ≤ 99) × (at + len ≤ 1125899906842624) }
    ensures { OnOk result (out.new.items ≡ out.old.items ++ turn_lines number asked at len) }
{
    let bytes = piece(alloc, number, at, len)?;
    let text = hex::encode(alloc, bytes.as_slice())?;
    out.extend_from_slice(b"take")?;
    push_name(out, b"p", number)?;
    push_number(out, asked)?;
    out.extend_from_slice(b"\ngive")?;
    push_name(out, b"u", number)?;
    push_word(out, text.as_bytes())?;
    out.extend_from_slice(b"\n")?;
    Ok(())
}

/// Appends the turns of the round of a number, until all its bytes are given.
pub(crate) fn push_turns(
    alloc: Global,
    out: &mut Vec<u8>,
    draws: &mut Draws,
    number: u64,
    total: u64,
) -> Result<(), NoMemory>
    requires { (number ≤ 99) × (total ≤ 1125899906842624) }
    ensures text { OnOk result (out.new.items ≡ out.old.items ++ (turns_at total number 0 total draws.old).0) }
    ensures moved { OnOk result (draws.new ≡ (turns_at total number 0 total draws.old).1) }
{
    let mut given = 0;
    'turns: while given < total {
        let asked = 1 + draws.below(97);
        let len = asked.min(total - given);
        push_turn(alloc, out, number, asked, given, len)?;
        given += len;
    }
    Ok(())
}
