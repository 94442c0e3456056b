//! Programs as they are read, and how often.
ghost use Rattle.std.specs.Prelude.{◌≡◌, ◌<◌, ℕ, List, length, Some, slice_get};
ghost use Rattle.dt_layout.specs.declared.instr.Instr as instr;
ghost use Rattle.dt_layout.specs.Code.{once_more, Counted};
ghost use Rattle.dt_layout.specs.Program.{AreProgram};

use crate::instr::Instr;
use crate::program::Program;
use std::marker::Model;

/// What the instructions of a lawful program are read from. Each read is counted.
pub trait Code {
    /// The program.
    ghost program: { Self → List instr.Instr };

    /// The count of reads.
    ghost reads: { Self → ℕ };

    /// How many instructions there are.
    fn len(&self) -> usize
        ensures value { result ≡ length (program self.now) }
        ensures lawful { AreProgram (program self.now) };

    /// Reads the instruction at a place. The count of reads rises by one, or stands still at its last value.
    fn at(&mut self, i: usize) -> Instr
        requires { i < length (program self.old) }
        ensures value { slice_get (program self.old) i ≡ Some result }
        ensures same { program self.new ≡ program self.old }
        ensures reads { reads self.new ≡ once_more (reads self.old) };
}

/// A program whose reads are counted, up to the greatest `u64`.
#[derive(Drop)]
pub struct CountedCode<'a> {
    program: &'a Program,
    reads: u64,
}

impl<'a> Model for CountedCode<'a> {
    ghost use Rattle.dt_layout.specs.Code.{Counted};

    ghost Value = { Counted };

    ghost view = { λ c. record { code = c.program.now; reads = c.reads } };
}

impl<'a> CountedCode<'a> {
    /// A program of which nothing was read.
    pub fn new(program: &'a Program) -> CountedCode<'a>
        ensures { result ≡ record { code = program.now; reads = 0 } }
    {
        CountedCode { program, reads: 0 }
    }

    /// How many instructions were read.
    pub fn reads(&self) -> u64
        ensures { result ≡ self.now.reads }
    {
        self.reads
    }
}

impl<'a> Code for CountedCode<'a> {
    ghost program = { λ c. c.code };

    ghost reads = { λ c. c.reads };

    fn len(&self) -> usize {
        self.program.len()
    }

    fn at(&mut self, i: usize) -> Instr {
        self.reads = self.reads.saturating_add(1);
        self.program.at(i)
    }
}
