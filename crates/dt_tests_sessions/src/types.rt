//! Types, told in the words of scripts.

use dt_machine::{Found, Machine};
use dt_type::Datatype;
use std::alloc::Global;
use std::test::Fail;

/// Types of which others are made.
const PARTS: [&str; 15] = [
    "type two = contiguous 2 MPI_BYTE",
    "type three = contiguous 3 MPI_INT",
    "type shorts = contiguous 3 MPI_SHORT",
    "type down = hvector 3 1 -4 MPI_INT",
    "type blocks = vector 2 2 4 MPI_BYTE",
    "type gap = vector 2 1 3 MPI_UNSIGNED",
    "type small = struct 1@0@MPI_INT 3@4@MPI_BYTE",
    "type large = struct 2@16@small 0@0@small 1@0@MPI_UNSIGNED_LONG",
    "type ints = struct 2@0@MPI_INT 1@8@MPI_SHORT",
    "type mixed = struct 1@0@small 4@8@MPI_SHORT",
    "type nothing = struct",
    "type spot = hindexed MPI_INT 1@0 0@8",
    "type spots = hindexed spot 1@0 0@8",
    "type tail = struct 1@1@MPI_BYTE 1@0@MPI_BYTE",
    "type tails = struct 1@1@tail 1@0@MPI_BYTE",
];

/// What makes `spots` and `tails` two levels deeper: two rows at each level, the second of them empty, and a byte before the level inside.
const DEEPER: [&str; 8] = [
    "type a = hindexed spots 1@0 0@8",
    "free spots",
    "type spots = hindexed a 1@0 0@8",
    "free a",
    "type b = struct 1@1@tails 1@0@MPI_BYTE",
    "free tails",
    "type tails = struct 1@1@b 1@0@MPI_BYTE",
    "free b",
];

fn obey(alloc: Global, machine: &mut Machine, line: &str) -> Result<(), Fail> {
    if machine.line(line.as_bytes(), &mut Vec::new(alloc))? {
        return Ok(());
    }
    Err(Fail::from(line))
}

/// A machine that has `spots` and `tails`, 63 levels deep, and the other parts.
fn with_parts(alloc: Global) -> Result<Machine, Fail> {
    let mut machine = Machine::new(alloc);
    for line in PARTS {
        obey(alloc, &mut machine, line)?;
    }
    for _pair in 0..30 {
        for line in DEEPER {
            obey(alloc, &mut machine, line)?;
        }
    }
    Ok(machine)
}

/// The type that a constructor makes.
pub(crate) fn type_of(alloc: Global, words: &str) -> Result<Datatype, Fail> {
    let mut machine = with_parts(alloc)?;
    let line = format!(in alloc; "type t = {words}")?;
    obey(alloc, &mut machine, line.as_str())?;
    let Ok(Found::Derived(ty)) = machine.find_type(b"t") else {
        return Err(Fail::from(words));
    };
    Ok(ty.share()?)
}
