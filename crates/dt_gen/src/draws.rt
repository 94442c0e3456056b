//! Numbers drawn one after another.
ghost use Rattle.std.specs.Prelude.{◌≡◌, ◌<◌};
ghost use Rattle.dt_gen.specs.Draws.{draw};

use std::marker::Model;

/// A word of 64 bits, from which numbers are drawn one after another.
#[derive(Drop)]
pub(crate) struct Draws {
    word: u64,
}

impl Model for Draws {
    ghost use Rattle.std.specs.Prelude.{ℕ};

    ghost Value = { ℕ };

    ghost view = { λ d. d.word };
}

impl Draws {
    /// The draws from a word.
    pub(crate) fn new(word: u64) -> Draws
        ensures { result ≡ word }
    {
        Draws { word }
    }

    /// The next number below `most`.
    pub(crate) fn below(&mut self, most: u64) -> u64
        requires { 0 < most }
        ensures drawn { result ≡ (draw most self.old).0 }
        ensures moved { self.new ≡ (draw most self.old).1 }
        ensures below { result < most }
    {
        let product = u128::from(self.word) * 6_364_136_223_846_793_005;
        self.word = ((product + 1_442_695_040_888_963_407) % (1 << 64)) as u64;
        (self.word >> 33) % most
    }
}
