//! Two pairs of an integer and a byte, packed from a buffer in pieces that end inside elements.
#![tactic(auto)]

use dt_ctor::structure;
use dt_kinds::{Kind, Rep};
use dt_pack::PackSession;
use dt_type::{CtorFault, Datatype, PartOf};
use std::alloc::Global;

/// An integer, and behind it a byte.
fn pair(alloc: Global) -> Result<Datatype, CtorFault> {
    let int = PartOf {
        len: 1,
        disp: 0,
        old: Datatype::named(alloc, Kind::Int)?,
    };
    let byte = PartOf {
        len: 1,
        disp: 4,
        old: Datatype::named(alloc, Kind::Byte)?,
    };
    structure(alloc, &[int, byte])
}

fn main(rt: HostRuntime) -> Result<(), anyhow::Error> {
    let buffer = [0, 1, 2, 3, 4, 5, 6, 7, 8, 9, 10, 11, 12, 13, 14, 15];
    let pair = pair(rt.alloc())?;
    let mut session = PackSession::begin(rt.alloc(), &pair, 2, Rep::Native, 0, buffer.len())?;
    let mut piece = [0; 4];
    for size in [3, 3, 4] {
        let taken = session.take(&buffer, &mut piece[..size]);
        println!(rt; "{:?}", &piece[..taken])?;
    }
    Ok(())
}
