//! Words of kinds, and closures stored by a law; one of them by a law of the test's own.
ghost use Rattle.std.specs.Prelude.{◌≡◌};
ghost use Rattle.dt_ops.specs.Stored.{TakesWords, Joins};
ghost use Rattle.dt_ops.specs.Word.{IsWord};
ghost use Rattle.dt_tests_sessions.specs.FirstSome.{first_some};

use dt_kinds::Kind;
use dt_ops::{Call, Law, StoredOp, SumLaw, is_word, sum};

/// The first word, or the second one where that is 0.
struct FirstSome;

impl Law for FirstSome {
    ghost join = { first_some };

    fn holds() {}
}

/// What a stored closure joins two words to.
fn joined<L: Law, F: Call + Drop>(f: F, kind: Kind, a: u64, b: u64) -> u64
    requires takes_words { TakesWords (F.may f) }
    requires joins { Joins L.join (F.gives f) }
    requires first { IsWord kind a }
    requires second { IsWord kind b }
    ensures { result ≡ L.join kind a b }
{
    let op = StoredOp::<L, F>::new(f);
    op.join(kind, a, b)
}

#[test]
fn stored_closures(rt: HostRuntime) {
    assert!(rt; joined::<SumLaw, _>(sum, Kind::Uint8, 200, 100) == 44);
    let skipped = 0;
    let first_some = |_kind: Kind, a: u64, b: u64| if a == skipped { b } else { a };
    assert!(rt; joined::<FirstSome, _>(&first_some, Kind::Int, 0, 7) == 7);
    assert!(rt; joined::<FirstSome, _>(&first_some, Kind::Int, 5, 7) == 5);
    assert!(rt; joined::<FirstSome, _>(&first_some, Kind::Int, 5, 0) == 5);
}

/// The greatest words of kinds of each size, with a sign or not.
const GREATEST: [(Kind, u64); 5] = [
    (Kind::Char, 0xff),
    (Kind::UnsignedShort, 0xffff),
    (Kind::Int, 0xffff_ffff),
    (Kind::Long, u64::MAX),
    (Kind::Uint64, u64::MAX),
];

#[test]
fn words_of_kinds(rt: HostRuntime) {
    for (kind, greatest) in GREATEST {
        let past = greatest.saturating_add(1);
        assert!(rt; is_word(kind, 0) && is_word(kind, greatest), "{kind:?}");
        assert!(rt; past == greatest || !is_word(kind, past), "{kind:?}");
    }
}
