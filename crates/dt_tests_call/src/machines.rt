//! What a machine tells beside its replies.
use dt_kinds::Kind;
use dt_machine::{Found, Machine, Totals};
use std::alloc::Global;
use std::test::Fail;

/// Lines, and what was counted behind them: the commands that weren't refused, the packed bytes that were taken, those that were
/// given, the elements that these completed, and the costs that `normalise` told.
type Row = (&'static str, [u64; 5]);

const ROWS: [Row; 3] = [
    // A seek takes nothing, and a refused line counts nothing.
    (
        "buffer b count 8\npack p native 2 MPI_INT b 0\ntake p 3\nseek p 6\ntake p -1\ntake p 7",
        [5, 5, 0, 0, 0],
    ),
    (
        "buffer b zero 8\nunpack u native 2 MPI_INT b 0\ngive u 010203\ngive u 010203040506\ngive u 0405",
        [4, 0, 5, 1, 0],
    ),
    // A vector of three integers at a cost of 4, and then of 21 under other weights; `rebuild` tells no cost of its own.
    (
        "type v = vector 3 1 2 MPI_INT\nnormalise v\nrebuild n = v\nnormalise none\nweights 1 20 30 40 50 60\n\
weights 1 1000001 30 40 50 60\nnormalise n",
        [5, 0, 0, 0, 25],
    ),
];

/// A machine behind some lines.
fn behind(alloc: Global, script: &str) -> Result<Machine, Fail> {
    let mut machine = Machine::new(alloc);
    let mut out = Vec::new(alloc);
    for line in script.split('\n') {
        machine.line(line.as_bytes(), &mut out)?;
    }
    Ok(machine)
}

fn listed(totals: Totals) -> [u64; 5] {
    let Totals {
        commands,
        taken,
        given,
        elements,
        cost,
    } = totals;
    [commands, taken, given, elements, cost]
}

#[test]
fn what_was_counted(rt: HostRuntime) -> Result<(), Fail> {
    for (script, wanted) in ROWS {
        let machine = behind(rt.alloc(), script)?;
        assert_eq!(rt; listed(machine.totals()), wanted);
    }
    Ok(())
}

/// The kind that a word names, nothing where it names another type, or why it names none.
fn named(machine: &Machine, word: &str) -> Result<Option<Kind>, u8> {
    match machine.find_type(word.as_bytes())? {
        Found::Basic(kind) => Ok(Some(kind)),
        Found::Derived(_) => Ok(None),
    }
}

const NAMES: [(&str, Result<Option<Kind>, u8>); 6] = [
    ("v", Ok(None)),
    ("x", Ok(Some(Kind::Int))),
    ("MPI_LONG_LONG_INT", Ok(Some(Kind::LongLong))),
    ("w", Err(2)),
    ("9", Err(2)),
    ("MPI_FLOAT", Err(4)),
];

#[test]
fn what_names_stand_for(rt: HostRuntime) -> Result<(), Fail> {
    let machine = behind(rt.alloc(), "type v = contiguous 2 MPI_INT\nchild x = v 0")?;
    for (word, wanted) in NAMES {
        assert!(rt; named(&machine, word) == wanted, "{word}");
    }
    Ok(())
}
