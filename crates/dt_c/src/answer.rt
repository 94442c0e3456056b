//! Answers as numbers.
ghost use Rattle.std.specs.Prelude.{◌≡◌, pos};
ghost use Rattle.std.specs.Result.{result_unwrap_or};
ghost use Rattle.dt_c.specs.Answer.{number_of, number_for, closed, standing, rep_of};

use dt_kinds::Rep;
use dt_space::SpaceFault;

/// What is answered where the library has no space.
pub(crate) fn is_closed() -> i32
    ensures { result ≡ pos closed }
{
    20
}

/// What is answered where the library has a space, and must not have one.
pub(crate) fn is_open() -> i32
    ensures { result ≡ pos standing }
{
    21
}

/// The number of a refusal.
pub(crate) fn number_of(fault: SpaceFault) -> i32
    ensures { result ≡ pos (number_of fault) }
{
    match fault {
        SpaceFault::NoMemory => 1,
        SpaceFault::BadArgument => 2,
        SpaceFault::NoSuchType => 3,
        SpaceFault::NoSuchSession => 4,
        SpaceFault::Uncommitted => 5,
        SpaceFault::Basic => 6,
        SpaceFault::Overflow => 7,
        SpaceFault::TooDeep => 8,
        SpaceFault::TooHeavy => 9,
        SpaceFault::Outside => 10,
        SpaceFault::Overlap => 11,
        SpaceFault::TooLarge => 12,
        SpaceFault::NoRoom => 13,
        SpaceFault::Spent => 14,
        SpaceFault::Longer => 15,
        SpaceFault::Differs => 16,
        SpaceFault::BadText => 17,
        SpaceFault::TooMany => 18,
    }
}

/// The number of an answer that has no value.
pub(crate) fn number(answer: Result<(), SpaceFault>) -> i32
    ensures { result ≡ number_for answer }
{
    match answer {
        Ok(()) => 0,
        Err(fault) => number_of(fault),
    }
}

/// The number of an answer, whose value is put where it belongs. A refusal puts none there.
pub(crate) fn put<T: Copy>(out: &mut T, answer: Result<T, SpaceFault>) -> i32
    ensures number { result ≡ number_for answer }
    ensures value { out.new ≡ result_unwrap_or answer out.old }
{
    match answer {
        Ok(value) => {
            *out = value;
            0
        }
        Err(fault) => number_of(fault),
    }
}

/// The representation that a flag tells.
pub(crate) fn rep_of(external32: bool) -> Rep
    ensures { result ≡ rep_of external32 }
{
    if external32 {
        Rep::External32
    } else {
        Rep::Native
    }
}
