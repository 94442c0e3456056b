//! Programs of types, printed as tables of their instructions.
ghost use Rattle.std.specs.Prelude.{pos, IfOk};
ghost use Rattle.dt_layout.specs.Program.{StandsFor};
ghost use Rattle.dt_map.specs.Elements.{elements};
ghost use Rattle.dt_type.specs.Datatype.{typemap_of};

use crate::types::type_of;
use dt_elems::{packed_size, span_inside};
use dt_kinds::Rep;
use dt_layout::{Code, CountedCode, Instr, Program, compile};
use dt_type::Datatype;
use std::alloc::Global;
use std::test::Fail;

/// All elements of an operation lie in a buffer of so many bytes, if it begins in the middle.
const ROOM: usize = 1 << 59;

const MIDDLE: i64 = 1 << 58;

/// The most packed bytes that a program may have.
const BYTES_MAX: u128 = 1 << 62;

/// The program of an operation whose elements don't lie too far.
pub(crate) fn program_of(alloc: Global, ty: &Datatype, count: u32) -> Result<Program, Fail>
    ensures { IfOk result (λ program. StandsFor program (elements (typemap_of ty.now) count (pos 0))) }
{
    let _bounds = ty.bounds();
    if !span_inside(ty, count, MIDDLE, ROOM) {
        return Err(Fail::from("elements too far"));
    }
    if packed_size(ty, Rep::Native, count) > BYTES_MAX {
        return Err(Fail::from("too many bytes"));
    }
    Ok(compile(alloc, ty, count)?)
}

/// An instruction: its numbers in the order of their declaration.
fn instruction_text(alloc: Global, instr: Instr) -> Result<String, Fail> {
    Ok(match instr {
        Instr::One(kind) => format!(in alloc; "{};", kind.name())?,
        Instr::Loop { turns, sizes, next } => {
            let t = turns;
            let steps = format!(in alloc; "{} {} {}", t.block, t.jump, t.step)?;
            let of = format!(in alloc; "{} {}", sizes.native, sizes.ext)?;
            format!(in alloc; "loop {} {} {steps} of {of} to {next};", t.first, t.count)?
        }
        Instr::Each { spots, sizes, next } => {
            format!(in alloc; "each {spots} of {} {} to {next};", sizes.native, sizes.ext)?
        }
        Instr::Spot(spot) => {
            format!(in alloc; "spot {} {} {};", spot.first, spot.copies, spot.step)?
        }
        Instr::Seq { parts, next } => format!(in alloc; "seq {parts} to {next};")?,
        Instr::End => format!(in alloc; "end;")?,
    })
}

/// All instructions of the program of an operation, read one by one.
fn text_of(alloc: Global, words: &str, count: u32) -> Result<String, Fail> {
    let program = program_of(alloc, &type_of(alloc, words)?, count)?;
    let mut text = String::new(alloc);
    for i in 0..program.len() {
        text.push_str(&instruction_text(alloc, program.at(i))?)?;
    }
    Ok(text)
}

/// So many copies of a type, and their program. Copies without gaps; one copy, and copies of one element; even steps, both ways; one row
/// of copies; blocks, blocks whose turns are two bytes each, and copies that follow as their blocks do; two steps; what is dealt out in
/// twos to two processes; a loop in a loop; spots, which stay as they are; parts, whose copies go on where those inside end; what has no
/// elements.
const PROGRAMS: [&str; 30] = [
    "16777216 dup MPI_BYTE = loop 0 16777216 16777216 0 1 of 1 1 to 3;MPI_BYTE;end;",
    "2 dup three = loop 0 6 6 0 4 of 4 4 to 3;MPI_INT;end;",
    "7 contiguous 5 three = loop 0 105 105 0 4 of 4 4 to 3;MPI_INT;end;",
    "1 dup MPI_INT = MPI_INT;",
    "3 resized 0 8 MPI_INT = loop 0 3 3 0 8 of 4 4 to 3;MPI_INT;end;",
    "1 vector 2 1 2 MPI_INT = loop 0 2 2 0 8 of 4 4 to 3;MPI_INT;end;",
    "1 vector 2 3 3 MPI_INT = loop 0 6 6 0 4 of 4 4 to 3;MPI_INT;end;",
    "1 hvector 2 1 -8 MPI_LONG = loop 0 2 2 0 -8 of 8 4 to 3;MPI_LONG;end;",
    "1 hvector 2 1 -12 down = loop 0 6 6 0 -4 of 4 4 to 3;MPI_INT;end;",
    "1 hindexed MPI_SHORT 3@8 = loop 8 3 3 0 2 of 2 2 to 3;MPI_SHORT;end;",
    "1 struct 3@8@MPI_SHORT = loop 8 3 3 0 2 of 2 2 to 3;MPI_SHORT;end;",
    "1 subarray c MPI_INT 4:4:0 4:1:1 = loop 4 4 4 0 16 of 4 4 to 3;MPI_INT;end;",
    "1 subarray c MPI_BYTE 3:2:1 4:4:0 = loop 4 8 8 0 1 of 1 1 to 3;MPI_BYTE;end;",
    "1 vector 2 3 4 MPI_INT = loop 0 6 3 16 4 of 4 4 to 3;MPI_INT;end;",
    "1 vector 2 2 3 two = loop 0 8 4 6 1 of 1 1 to 3;MPI_BYTE;end;",
    "3 resized 0 8 blocks = loop 0 12 2 4 1 of 1 1 to 3;MPI_BYTE;end;",
    "2 resized 0 13 three = loop 0 6 3 13 4 of 4 4 to 3;MPI_INT;end;",
    "1 subarray c MPI_BYTE 3:2:0 4:2:1 = loop 1 4 2 4 1 of 1 1 to 3;MPI_BYTE;end;",
    "1 darray 2 0 c MPI_BYTE 7:cyclic:2:2 = loop 0 4 2 4 1 of 1 1 to 3;MPI_BYTE;end;",
    "1 subarray c MPI_BYTE 3:2:0 3:2:0 3:2:0 = loop 0 2 2 0 9 of 4 4 to 5;loop 0 4 2 3 1 of 1 1 to 4;MPI_BYTE;end;end;",
    "1 indexed MPI_INT 2@0 1@5 = each 2 of 4 4 to 5;spot 0 2 4;spot 20 1 4;MPI_INT;end;",
    "2 indexed_block MPI_INT 1 3 0 = loop 0 2 2 0 16 of 8 8 to 7;each 2 of 4 4 to 6;spot 12 1 4;spot 0 1 4;MPI_INT;end;end;",
    "1 hindexed_block MPI_LONG 2 -16 8 = each 2 of 8 4 to 5;spot -16 2 8;spot 8 2 8;MPI_LONG;end;",
    "1 struct 1@0@MPI_INT 1@4@MPI_BYTE = seq 2 to 8;loop 0 1 1 0 4 of 4 4 to 4;MPI_INT;end;loop 4 1 1 0 1 of 1 1 to 7;MPI_BYTE;end;end;",
    "1 struct 2@10@shorts 1@0@MPI_LONG = seq 2 to 8;loop 10 6 6 0 2 of 2 2 to 4;MPI_SHORT;end;loop 0 1 1 0 8 of 8 4 to 7;MPI_LONG;end;end;",
    "1 struct 1@0@MPI_INT 2@4@MPI_BYTE 1@0@nothing 0@8@MPI_INT = seq 2 to 8;loop 0 1 1 0 4 of 4 4 to 4;MPI_INT;end;loop 4 2 2 0 1 of 1 1 to 7;MPI_BYTE;end;end;",
    "0 dup MPI_INT = seq 0 to 2;end;",
    "5 dup nothing = seq 0 to 2;end;",
    "4 vector 3 2 4 nothing = seq 0 to 2;end;",
    "4 hindexed_block nothing 2 0 7 = seq 0 to 2;end;",
];

/// The number, the words and the text of a row.
fn row(line: &str) -> Option<(u32, &str, &str)> {
    let (count, rest) = line.split_once(' ')?;
    let (words, text) = rest.split_once('=')?;
    Some((count.parse().ok()?, words.trim(), text.trim()))
}

#[test]
fn shapes_and_their_programs(rt: HostRuntime) -> Result<(), Fail> {
    for line in PROGRAMS {
        let Some((count, words, expected)) = row(line) else {
            return Err(Fail::from(line));
        };
        let text = text_of(rt.alloc(), words, count)?;
        assert!(rt; text.as_str() == expected, "{words}: {text}");
    }
    Ok(())
}

/// Every level has its two spots, its head and its end.
#[test]
fn a_deep_program(rt: HostRuntime) -> Result<(), Fail> {
    let alloc = rt.alloc();
    let program = program_of(alloc, &type_of(alloc, "hindexed spots 1@0 0@8")?, 1)?;
    let mut code = CountedCode::new(&program);
    assert!(rt; code.len() == 253);
    let head = instruction_text(alloc, code.at(0))?;
    assert!(rt; head.as_str() == "each 2 of 4 4 to 253;", "{head}");
    assert!(rt; matches!(code.at(189), Instr::One(_)) && code.reads() == 2);
    Ok(())
}

/// The program of a type of the greatest weight, which has 65,534 places.
#[test]
fn a_heavy_program(rt: HostRuntime) -> Result<(), Fail> {
    let alloc = rt.alloc();
    let mut words = format!(in alloc; "hindexed_block MPI_INT 1")?;
    for i in 0..65_534_u32 {
        words.push_str(&format!(in alloc; " {}", i * 8 + i % 3)?)?;
    }
    let heavy = type_of(alloc, words.as_str())?;
    let program = program_of(alloc, &heavy, 1)?;
    assert!(rt; heavy.weight() == 65_536 && program.len() == 65_537);
    Ok(())
}
