//! The script of a number.
ghost use Rattle.std.specs.Prelude.{◌≡◌, ◌≤◌, ◌++◌, OnOk, IfOk};
ghost use Rattle.dt_gen.specs.Script.{big_at, places_at, round_text_at, rounds_at, script_of};

use crate::draws::Draws;
use crate::round::{Round, push_end, push_sessions};
use crate::text::push_number;
use crate::turns::push_turns;
use dt_kinds::NoMemory;
use std::alloc::Global;

/// Appends the round of a number.
#[tactic(auto, unfolding(crate::specs::Script::round_text_at))]
fn push_round(
    alloc: Global,
    out: &mut Vec<u8>,
    draws: &mut Draws,
    number: u64,
) -> Result<(), NoMemory>
    requires { number ≤ 99 }
    ensures text { OnOk result (out.new.items ≡ out.old.items ++ (round_text_at number draws.old).0) }
    ensures moved { OnOk result (draws.new ≡ (round_text_at number draws.old).1) }
{
    let round = Round::drawn(draws);
    round.push_types(out, number)?;
    round.push_buffers(out, number)?;
    push_sessions(out, number)?;
    push_turns(alloc, out, draws, number, round.packed_len())?;
    push_end(out, number)
}

/// Appends a hundred rounds.
fn push_rounds(alloc: Global, out: &mut Vec<u8>, draws: &mut Draws) -> Result<(), NoMemory>
    ensures text { OnOk result (out.new.items ≡ out.old.items ++ (rounds_at 100 0 draws.old).0) }
    ensures moved { OnOk result (draws.new ≡ (rounds_at 100 0 draws.old).1) }
{
    'rounds: for number in 0..100 {
        push_round(alloc, out, draws, number)?;
    }
    Ok(())
}

/// Appends 1,024 displacements, each behind a space.
fn push_places(out: &mut Vec<u8>, draws: &mut Draws) -> Result<(), NoMemory>
    ensures text { OnOk result (out.new.items ≡ out.old.items ++ (places_at 1024 0 draws.old).0) }
    ensures moved { OnOk result (draws.new ≡ (places_at 1024 0 draws.old).1) }
{
    'places: for i in 0..1024 {
        push_number(out, 3 * i + draws.below(2))?;
    }
    Ok(())
}

/// The script of a number: a hundred rounds, in each of which a type of a kind, of a size and of gaps that are drawn is packed from one
/// buffer in pieces, as many bytes are unpacked into another one, and a least tree of the type is told; and then a type of 1,024 entries,
/// and a least tree of it. One number has one script.
#[tactic(auto, unfolding(crate::specs::Script::script_at, crate::specs::Script::big_at))]
pub fn generate(alloc: Global, n: u32) -> Result<Vec<u8>, NoMemory>
    ensures { IfOk result (λ text. text.items ≡ script_of n) }
{
    let mut out = Vec::new(alloc);
    let mut draws = Draws::new(u64::from(n));
    push_rounds(alloc, &mut out, &mut draws)?;
    out.extend_from_slice(b"type big = indexed_block MPI_SHORT 1")?;
    push_places(&mut out, &mut draws)?;
    out.extend_from_slice(b"\nnormalise big\n")?;
    Ok(out)
}
