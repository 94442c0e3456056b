//! Packed bytes of programs, found one by one, and cut in all ways into runs and rows, compared with the plain list of elements.
ghost use Rattle.std.specs.Prelude.{pos, ◌<◌};
ghost use Rattle.dt_layout.specs.Program.{StandsFor};
ghost use Rattle.dt_map.specs.Elements.{elements};
ghost use Rattle.dt_type.specs.Datatype.{typemap_of};

use crate::programs::program_of;
use crate::types::type_of;
use dt_cursor::{Cursor, Frames, Rows, Run, find, here};
use dt_elems::packed_size;
use dt_kinds::{Kind, Rep};
use dt_layout::{CountedCode, Program};
use dt_map::Entry;
use dt_type::Datatype;
use std::alloc::Global;
use std::rc::Rc;
use std::test::Fail;

/// So many copies of types: adjacent elements whose images are shorter, blocks downwards and blocks with gaps; parts of arrays; places
/// with empty blocks before, between and after the others; parts of parts, of which one is empty; no elements; the deepest types.
const SHAPES: [(&str, u32); 14] = [
    ("dup MPI_LONG", 3),
    ("contiguous 3 MPI_LONG", 2),
    ("hvector 3 2 -20 MPI_LONG", 3),
    ("vector 4 3 5 MPI_SHORT", 3),
    ("hvector 3 1 -12 MPI_INT", 1),
    ("subarray fortran MPI_INT 4:3:1 4:3:1 4:3:1", 1),
    ("subarray c MPI_SHORT 3:2:1 3:2:1 3:2:1", 2),
    ("hindexed MPI_UNSIGNED 0@0 2@-80 0@0 3@-120 0@0", 2),
    ("hindexed gap 0@0 2@-80 0@0 3@-120 0@0", 2),
    ("resized 0 40 large", 3),
    ("dup nothing", 4),
    ("dup MPI_INT", 0),
    ("hindexed spots 1@0 0@8", 1),
    ("struct 1@1@tails 1@0@MPI_BYTE", 1),
];

/// The bytes of an element's image.
fn image_size(kind: Kind, rep: Rep) -> i64 {
    match rep {
        Rep::Native => i64::from(kind.size()),
        Rep::External32 => i64::from(kind.ext_size()),
    }
}

/// The place in memory of a byte of the images of adjacent elements, the first of which stands at a displacement: as it lies in memory,
/// or turned, and cut where external32 has fewer.
fn place_of(kind: Kind, rep: Rep, disp: i64, byte: i64) -> i64 {
    let size = image_size(kind, rep);
    let element = byte.checked_div(size).unwrap_or(0);
    let within = byte.checked_rem(size).unwrap_or(0);
    let at = disp.saturating_add(element.saturating_mul(i64::from(kind.size())));
    match rep {
        Rep::Native => at.saturating_add(within),
        Rep::External32 => at.saturating_add(size.saturating_sub(1).saturating_sub(within)),
    }
}

/// The places of all packed bytes of an operation, element by element.
fn plain(alloc: Global, ty: &Datatype, count: u32, rep: Rep) -> Result<Vec<i64>, Fail> {
    let mut places = Vec::new(alloc);
    let extent = i64::try_from(ty.extent()).unwrap_or(0);
    for copy in 0..count {
        let origin = i64::from(copy).saturating_mul(extent);
        for k in 0..ty.bounds().elements {
            let Some(Entry { kind, disp }) = ty.entry_at(k) else {
                return Err(Fail::from("no entry"));
            };
            for byte in 0..image_size(kind, rep) {
                places.push(place_of(kind, rep, origin.saturating_add(disp), byte))?;
            }
        }
    }
    Ok(places)
}

/// Appends the places of the packed bytes that rows name.
fn append_rows(places: &mut Vec<i64>, rep: Rep, rows: &Rows) -> Result<(), Fail> {
    let skip = i64::from(rows.run.skip);
    let bytes = i64::try_from(rows.run.bytes).unwrap_or(0);
    let end = skip.saturating_add(bytes);
    let mut disp = rows.run.disp;
    for _row in 0..rows.rows {
        for byte in skip..end {
            places.push(place_of(rows.run.kind, rep, disp, byte))?;
        }
        disp = disp.saturating_add(rows.step);
    }
    Ok(())
}

fn cursor_of(alloc: Global, ty: &Datatype, count: u32, rep: Rep) -> Result<Cursor, Fail> {
    let program = Rc::new(alloc, program_of(alloc, ty, count)?)?;
    Ok(Cursor::new(program, rep))
}

/// What comes next of so many bytes at most: rows, or a run alone.
fn next(cursor: &mut Cursor, most: usize, by_rows: bool) -> Option<Rows>
    requires { 0 < most }
{
    if by_rows {
        return cursor.next_rows(most);
    }
    let run = cursor.next_run(most)?;
    Some(Rows {
        run,
        rows: 1,
        step: 0,
    })
}

/// All that comes next, in pieces of so many bytes at most.
fn joined(alloc: Global, cursor: &mut Cursor, most: usize, by_rows: bool) -> Result<Vec<i64>, Fail>
    requires { 0 < most }
{
    let mut places = Vec::new(alloc);
    let rep = cursor.rep();
    for _step in 0..=cursor.total() {
        let Some(rows) = next(cursor, most, by_rows) else {
            return Ok(places);
        };
        append_rows(&mut places, rep, &rows)?;
    }
    Err(Fail::from("no end"))
}

/// Whether a walk from a byte on is the rest of the plain list.
fn is_rest(
    alloc: Global,
    cursor: &mut Cursor,
    byte: usize,
    most: usize,
    by_rows: bool,
    expected: &[i64],
) -> Result<bool, Fail> {
    if byte as u64 > cursor.total() || most == 0 {
        return Ok(false);
    }
    cursor.seek(byte as u64);
    let places = joined(alloc, cursor, most, by_rows)?;
    let at_end = cursor.position() == cursor.total();
    Ok(at_end && Some(places.as_slice()) == expected.get(byte..))
}

/// Whether all walks of an operation, in pieces of each length, by runs and by rows, are the plain list's: from each byte to the end, from
/// the first and the last ones to those in the middle.
fn is_plain(alloc: Global, ty: &Datatype, count: u32, rep: Rep) -> Result<bool, Fail> {
    let expected = plain(alloc, ty, count, rep)?;
    let mut cursor = cursor_of(alloc, ty, count, rep)?;
    let total = expected.len();
    let mut all = true;
    for byte in 0..=total {
        for most in [1, 2, 3, 7, 64, usize::MAX] {
            all &= is_rest(alloc, &mut cursor, byte, most, false, &expected)?;
            let back = total.saturating_sub(byte);
            all &= is_rest(alloc, &mut cursor, back, most, true, &expected)?;
        }
    }
    Ok(all)
}

/// The rows that come first where there is room for so many bytes, as one line of numbers: place, elements, rows and step.
fn first_rows(alloc: Global, words: &str, count: u32, most: usize) -> Result<String, Fail>
    requires { 0 < most }
{
    let mut cursor = cursor_of(alloc, &type_of(alloc, words)?, count, Rep::Native)?;
    let Some(rows) = cursor.next_rows(most) else {
        return Ok(format!(in alloc; "end")?);
    };
    let Run { disp, elements, .. } = rows.run;
    Ok(format!(in alloc; "{disp} {elements} {} {}", rows.rows, rows.step)?)
}

/// Three blocks of two of four ints: all of them, two of them with some room left, and less than a block; one of two ints; all ints.
const FIRST_ROWS: [(&str, u32, usize, &str); 5] = [
    ("vector 3 2 4 MPI_INT", 1, 1000, "0 2 3 16"),
    ("vector 3 2 4 MPI_INT", 1, 23, "0 2 2 16"),
    ("vector 3 2 4 MPI_INT", 1, 7, "0 1 1 0"),
    ("vector 5 1 2 MPI_INT", 1, 1000, "0 1 5 8"),
    ("dup MPI_INT", 6, 1000, "0 6 1 0"),
];

#[test]
fn blocks_are_rows(rt: HostRuntime) -> Result<(), Fail> {
    for (words, count, most, expected) in FIRST_ROWS {
        let rows = first_rows(rt.alloc(), words, count, most.max(1))?;
        assert!(rt; rows.as_str() == expected, "{words}: {rows}");
    }
    Ok(())
}

/// The place of a packed byte, found in the program of an operation; `None` at the end.
fn place_found(program: &Program, ty: &Datatype, count: u32, rep: Rep, byte: u64) -> Option<i64>
    requires { StandsFor program.now (elements (typemap_of ty.now) count (pos 0)) }
{
    if u128::from(byte) > packed_size(ty, rep, count) {
        return None;
    }
    let mut code = CountedCode::new(program);
    let mut frames = Frames::new();
    let held = find(&mut code, rep, byte, &mut frames);
    let entry = here(program, &frames)?;
    Some(place_of(entry.kind, rep, entry.disp, i64::from(held)))
}

/// Whether each byte of an operation is found in turn, and then the end.
fn is_found(alloc: Global, ty: &Datatype, count: u32, rep: Rep) -> Result<bool, Fail> {
    let program = program_of(alloc, ty, count)?;
    let expected = plain(alloc, ty, count, rep)?;
    let mut all = true;
    for byte in 0..=expected.len() {
        let place = place_found(&program, ty, count, rep, byte as u64);
        all &= place == expected.get(byte).copied();
    }
    Ok(all)
}

#[test]
fn every_byte_and_every_cut(rt: HostRuntime) -> Result<(), Fail> {
    let alloc = rt.alloc();
    for (words, count) in SHAPES {
        let ty = type_of(alloc, words)?;
        for rep in [Rep::Native, Rep::External32] {
            assert!(rt; is_found(alloc, &ty, count, rep)?, "{rep:?} {words}");
            assert!(rt; is_plain(alloc, &ty, count, rep)?, "{rep:?} {words}");
        }
    }
    Ok(())
}

/// The innermost byte: a frame for the two copies, two for each of 63 levels (its parts, and the one that is run), and the element's.
#[test]
fn the_most_frames(rt: HostRuntime) -> Result<(), Fail> {
    let deep = type_of(rt.alloc(), "struct 1@1@tails 1@0@MPI_BYTE")?;
    let program = program_of(rt.alloc(), &deep, 2)?;
    let mut frames = Frames::new();
    find(&mut CountedCode::new(&program), Rep::Native, 0, &mut frames);
    assert!(rt; frames.len() == 128, "{}", frames.len());
    Ok(())
}
