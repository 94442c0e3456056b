//! Datatypes that each constructor makes, by their sizes and extents.

use crate::numbers::{Answer, basic, int, part, short, size};
use dt_form::{AddrBlock, Dist, DistDim, IntBlock, Order, SubDim};
use dt_space::{Space, TypeNumber};
use std::alloc::Global;
use std::test::Fail;

/// A datatype of ints and numbers.
fn of_numbers(alloc: Global, space: &mut Space, which: usize) -> Answer<TypeNumber> {
    match which {
        0 => space.contiguous(alloc, 3, int()),
        1 => space.vector(alloc, 2, 1, 2, int()),
        2 => space.hvector(alloc, 2, 1, -8, int()),
        3 => space.resized(alloc, -4, 20, int()),
        _ => space.dup(alloc, int()),
    }
}

/// A datatype of shorts and a list.
fn of_a_list(alloc: Global, space: &mut Space, which: usize) -> Answer<TypeNumber> {
    let blocks = [IntBlock { len: 1, disp: 1 }, IntBlock { len: 2, disp: 4 }];
    let in_bytes = [AddrBlock { len: 1, disp: 2 }, AddrBlock { len: 2, disp: 8 }];
    match which {
        5 => space.indexed(alloc, &blocks, short()),
        6 => space.hindexed(alloc, &in_bytes, short()),
        7 => space.indexed_block(alloc, 2, &[3, 0], short()),
        _ => space.hindexed_block(alloc, 1, &[88, 70, 57], short()),
    }
}

/// Two bytes and an int before them; two of four ints, from the second one on; and of six ints, dealt out in blocks of four to two
/// processes, those of the second.
fn of_parts(alloc: Global, space: &mut Space, which: usize) -> Answer<TypeNumber> {
    let (size, sub, start) = (4, 2, 1);
    let dealt = DistDim {
        gsize: 6,
        dist: Dist::Block,
        darg: Some(4),
        psize: 2,
    };
    match which {
        9 => space.structure(alloc, &[part(2, 8, basic(0)), part(1, -4, int())]),
        10 => space.subarray(alloc, &[SubDim { size, sub, start }], Order::C, int()),
        _ => space.darray(alloc, 2, 1, &[dealt], Order::C, int()),
    }
}

fn made(alloc: Global, space: &mut Space, which: usize) -> Answer<TypeNumber> {
    match which {
        0..5 => of_numbers(alloc, space, which),
        5..9 => of_a_list(alloc, space, which),
        _ => of_parts(alloc, space, which),
    }
}

/// The size; the lower bound and the extent, with marks and without.
fn measured(alloc: Global, space: &Space, ty: TypeNumber) -> Answer<(u64, [i64; 4])> {
    let whole = space.extent(alloc, ty)?;
    let entries = space.true_extent(alloc, ty)?;
    let bounds = [whole.lb, whole.extent, entries.lb, entries.extent];
    Ok((size(alloc, space, ty)?, bounds))
}

#[test]
fn by_each_constructor(rt: HostRuntime) -> Result<(), Fail> {
    let rows = [
        (12, [0, 12, 0, 12]),
        (8, [0, 12, 0, 12]),
        (8, [-8, 12, -8, 12]),
        (4, [-4, 20, 0, 4]),
        (4, [0, 4, 0, 4]),
        (6, [2, 10, 2, 10]),
        (6, [2, 10, 2, 10]),
        (8, [0, 10, 0, 10]),
        (6, [57, 34, 57, 33]),
        (6, [-4, 16, -4, 14]),
        (8, [0, 16, 4, 8]),
        (8, [0, 24, 16, 8]),
    ];
    let mut space = Space::new(rt.alloc());
    for (which, want) in rows.iter().enumerate() {
        let ty = made(rt.alloc(), &mut space, which)?;
        assert_eq!(rt; measured(rt.alloc(), &space, ty)?, *want, "{which}");
    }
    Ok(())
}
