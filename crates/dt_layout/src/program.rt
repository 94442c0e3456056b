//! A program, whose instructions are read one by one.
ghost use Rattle.std.specs.Prelude.{◌≡◌, ◌<◌, length, Some, slice_get};
ghost use Rattle.dt_layout.specs.Program.{AreProgram};

use crate::instr::Instr;
use std::marker::Model;

/// A lawful loop program.
#[derive(Drop)]
pub struct Program {
    code: Vec<Instr>,
}

impl Model for Program {
    ghost use Rattle.std.specs.Prelude.{List};
    ghost use Rattle.dt_layout.specs.declared.instr.Instr.{Instr};
    ghost use Rattle.dt_layout.specs.Program.{AreProgram};

    ghost Value = { List Instr };

    ghost view = { λ p. p.code.items };

    ghost invariant = { λ p. AreProgram p.code.items };
}

impl Program {
    /// The program of instructions that are one.
    pub(crate) fn of(code: Vec<Instr>) -> Program
        requires { AreProgram code.items }
        ensures { result ≡ code.items }
    {
        Program { code }
    }

    /// How many instructions there are.
    pub fn len(&self) -> usize
        ensures value { result ≡ length self.now }
        ensures lawful { AreProgram self.now }
    {
        self.code.len()
    }

    /// The instruction at a place.
    pub fn at(&self, i: usize) -> Instr
        requires { i < length self.now }
        ensures { slice_get self.now i ≡ Some result }
    {
        self.code[i]
    }
}
