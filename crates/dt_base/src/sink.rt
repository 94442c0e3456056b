ghost use Rattle.std.specs.Prelude.{ℕ, Option, List, ◌≤◌, OnOk, OnErr};
ghost use Rattle.std.specs.Io.{WritesAtMost};
ghost use Rattle.std.specs.Io.KnownBytes.{Appends, WriteAppends};
ghost use Rattle.dt_base.specs.Counter.{Rose};
ghost use Rattle.dt_base.specs.Transfer.{TakesSome, AppendsFront};

use crate::Failed;

/// What bytes are written to.
pub trait Sink {
    /// The bytes that it holds, where it tells them.
    ghost held: { Self → Option (List ℕ) };

    /// The count of faults, which never falls.
    ghost faults: { Self → ℕ };

    /// Appends a front of the piece, and answers how many bytes that is: at least one of a piece that
    /// has any. `Failed` comes only where the count of faults rose; then nothing was appended.
    fn write(&mut self, piece: &[u8]) -> Result<usize, Failed>
        ensures bound { WritesAtMost result piece.now }
        ensures some { TakesSome result piece.now }
        ensures bytes { WriteAppends (held self.old) (held self.new) result piece.now }
        ensures faults { faults self.old ≤ faults self.new }
        ensures failed { OnErr result (Rose (faults self.old) (faults self.new)) };
}

/// Appends the whole piece. `Failed` comes only where the count of faults rose; then a front of the piece
/// was appended. It takes no memory.
pub fn write_all<K: Sink>(sink: &mut K, piece: &[u8]) -> Result<(), Failed>
    ensures bytes { OnOk result (Appends (K.held sink.old) (K.held sink.new) piece.now) }
    ensures front { OnErr result (AppendsFront (K.held sink.old) (K.held sink.new) piece.now) }
    ensures faults { K.faults sink.old ≤ K.faults sink.new }
    ensures failed { OnErr result (Rose (K.faults sink.old) (K.faults sink.new)) }
{
    let mut done = 0;
    'pieces: while done < piece.len() {
        done += sink.write(&piece[done..])?;
    }
    Ok(())
}
