ghost use Rattle.std.specs.Prelude.{◌≡◌, ℕ, ◌+◌, ◌<◌, ◌≤◌, Option, List, length, vec_len, OnErr, IfOk, IfSome, IsErrOf};
ghost use Rattle.std.specs.Result.{result_unwrap_or};
ghost use Rattle.std.specs.Io.{ReadsAtMost};
ghost use Rattle.std.specs.Io.KnownBytes.{ReadConsumes};
ghost use Rattle.dt_base.specs.Counter.{counted, Rose};
ghost use Rattle.dt_base.specs.Transfer.{KeepsRest, ReadsAll, TakesFront};

use crate::{Failed, PIECE};
use std::alloc::Global;
use thiserror::Error;

/// What bytes are read from.
pub trait Source {
    /// The bytes that are left, where it tells them.
    ghost left: { Self → Option (List ℕ) };

    /// The count of faults, which never falls.
    ghost faults: { Self → ℕ };

    /// The count of bytes taken.
    ghost taken: { Self → ℕ };

    /// Takes the next bytes, writes them over the front of `out`, and answers how many they are: none
    /// with room for one only at the end. `Failed` comes only where the count of faults rose; then
    /// nothing was taken.
    fn read(&mut self, out: &mut [u8]) -> Result<usize, Failed>
        ensures bound { ReadsAtMost result out.new }
        ensures bytes { ReadConsumes (left self.old) (left self.new) result out.new }
        ensures rest { KeepsRest result out.old out.new }
        ensures count { taken self.new ≡ counted (taken self.old) (result_unwrap_or result 0) }
        ensures faults { faults self.old ≤ faults self.new }
        ensures failed { OnErr result (Rose (faults self.old) (faults self.new)) };
}

/// Why a source was not read to its end.
#[derive(Clone, Copy, Debug, PartialEq, Eq, Error)]
pub enum ReadEnd {
    /// A read failed: the source's count of faults rose.
    #[error("a read failed")]
    Fault,
    /// One byte more than the limit was read.
    #[error("there are more bytes than the limit")]
    TooLong,
    /// No memory was found for the bytes.
    #[error("out of memory")]
    NoMemory,
}

/// The greatest limit of `read_all`, in bytes.
pub const READ_MAX: usize = 16_777_216;

/// Reads all that is left, at most `limit` bytes. After each `Err`, bytes may have been taken. Each turn
/// but the last takes at least one byte, and all together at most `limit + 1`, so there are at most
/// `limit + 2` turns.
pub fn read_all<S: Source>(alloc: Global, source: &mut S, limit: usize) -> Result<Vec<u8>, ReadEnd>
    requires { limit ≤ READ_MAX }

    // The answer is all that was left.
    ensures bytes { IfOk result (λ bytes. ReadsAll (S.left source.old) (S.left source.new) bytes.items) }
    ensures fits { IfOk result (λ bytes. vec_len bytes ≤ limit) }
    ensures count { IfOk result (λ bytes. S.taken source.new ≡ counted (S.taken source.old) (vec_len bytes)) }

    // When each fault comes. Where `limit + 1` bytes were taken, nothing else does.
    ensures fault { IsErrOf result ReadEnd.Fault → Rose (S.faults source.old) (S.faults source.new) }
    ensures too_long { IsErrOf result ReadEnd.TooLong → S.taken source.new ≡ counted (S.taken source.old) (limit + 1) }
    ensures longer { IsErrOf result ReadEnd.TooLong → IfSome (S.left source.old) (λ left. limit < length left) }
    ensures always_too_long { S.taken source.old + (limit + 1) ≤ S.taken source.new → IsErrOf result ReadEnd.TooLong }

    // What stands after each of them, and after `Ok`.
    ensures front { TakesFront (S.left source.old) (S.left source.new) (S.taken source.old) (S.taken source.new) }
    ensures taken { S.taken source.old ≤ S.taken source.new }
    ensures faults { S.faults source.old ≤ S.faults source.new }
{
    let mut bytes = Vec::new(alloc);
    let mut piece = [0; PIECE];
    'turns: loop {
        let room = (limit + 1 - bytes.len()).min(PIECE);
        let Ok(count) = source.read(&mut piece[..room]) else {
            return Err(ReadEnd::Fault);
        };
        if count == 0 {
            return Ok(bytes);
        }
        if count > limit - bytes.len() {
            return Err(ReadEnd::TooLong);
        }
        let Ok(()) = bytes.extend_from_slice(&piece[..count]) else {
            return Err(ReadEnd::NoMemory);
        };
    }
}
