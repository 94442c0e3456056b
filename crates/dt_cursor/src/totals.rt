//! The packed bytes of a whole program.
ghost use Rattle.std.specs.Prelude.{◌≡◌, ◌+◌, ◌*◌, ◌^◌, ◌<◌, ◌≤◌, List, length};
ghost use Rattle.dt_cursor.specs.Onward.{AreParts};
ghost use Rattle.dt_cursor.specs.Search.{AreSpots};
ghost use Rattle.dt_layout.specs.Body.{Body, Parts, size, sizes};
ghost use Rattle.dt_layout.specs.Program.{AreProgram, IsProgram, StandsFor};
ghost use Rattle.dt_map.specs.declared.entry.Entry as entry;
ghost use Rattle.dt_map.specs.Packed.{total};
ghost use Rattle.dt_offsets.specs.declared.turns.Spot as spots;
ghost use Rattle.dt_offsets.specs.Offsets.{spot_offsets};

use crate::onward::spot_of;
use crate::step::{bytes_of, size_by};
use dt_kinds::Rep;
use dt_layout::{Instr, Program};

/// The packed bytes of a body of a size at each copy of spots.
fn spots_total(program: &Program, first: usize, count: usize, each: u64) -> u64
    requires spots { (all : List spots.Spot) × AreSpots program.now first all × (length all ≡ count) × (length (spot_offsets all) * each ≤ 2 ^ 62) }
    requires fits { first + count < 2 ^ 64 }
    ensures { (all : List spots.Spot) → AreSpots program.now first all → length all ≡ count → result ≡ length (spot_offsets all) * each }
{
    let mut bytes: u64 = 0;
    let mut i: usize = 0;
    'spots: while i < count {
        let spot = spot_of(program, first + i);
        bytes += u64::from(spot.copies) * each;
        i += 1;
    }
    bytes
}

/// The packed bytes of parts.
fn parts_total(program: &Program, rep: Rep, from: usize) -> u64
    requires { (parts : Parts) × AreParts program.now from parts × (sizes rep parts ≤ 2 ^ 62) }
    ensures { (parts : Parts) → AreParts program.now from parts → result ≡ sizes rep parts }
{
    let mut bytes: u64 = 0;
    let mut place = from;
    'parts: while let Instr::Loop { turns, sizes, next } = program.at(place) {
        bytes += turns.count * size_by(sizes, rep);
        place = next;
    }
    bytes
}

/// The packed bytes of the body of a program.
fn body_total(program: &Program, rep: Rep) -> u64
    requires program { AreProgram program.now }
    requires fits { length program.now < 2 ^ 64 }
    ensures { (body : Body) → IsProgram program.now body → result ≡ size rep body }
{
    match program.at(0) {
        Instr::One(kind) => bytes_of(kind, rep),
        Instr::Loop { turns, sizes, .. } => turns.count * size_by(sizes, rep),
        Instr::Each { spots, sizes, .. } => { spots_total(program, 1, spots, size_by(sizes, rep)) }
        Instr::Seq { .. } => parts_total(program, rep, 1),
        Instr::Spot(_) | Instr::End => unreachable!(),
    }
}

/// The packed bytes of the elements for which a program stands.
pub(crate) fn total_of(program: &Program, rep: Rep) -> u64
    ensures lawful { AreProgram program.now }
    ensures value { (es : List entry.Entry) → StandsFor program.now es → result ≡ total rep es }
{
    let len = program.len();
    if len == 0 {
        return 0;
    }
    body_total(program, rep)
}
