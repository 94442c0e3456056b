//! What is written at once to a buffer, and what it stands for.
ghost use Rattle.std.specs.Prelude.{◌≡◌, ℕ, List, length};
ghost use Rattle.dt_kinds.specs.declared.kind.Rep.TheVariants.{External32};
ghost use Rattle.dt_kinds.specs.Image.{restore};
ghost use Rattle.dt_kinds.specs.Kind.{external_size, native_size};

use crate::piece::Piece;
use dt_image::restore;
use dt_kinds::{Kind, Rep};

/// Some packed bytes, and the bytes in memory that they stand for.
pub(crate) trait Store {
    /// How many packed bytes there are.
    ghost packed: { Self → ℕ };

    /// How many bytes they stand for.
    ghost width: { Self → ℕ };

    /// The bytes that they stand for.
    ghost restored: { Self → List ℕ → List ℕ };

    fn packed(&self) -> usize
        ensures { result ≡ packed self.now };

    fn width(&self) -> usize
        ensures { result ≡ width self.now };

    /// Writes the bytes for which packed bytes stand.
    fn store(&self, image: &[u8], out: &mut [u8])
        requires read { length image.now ≡ packed self.now }
        requires room { length out.old ≡ width self.now }
        ensures { out.new ≡ restored self.now image.now };
}

/// As many bytes as are packed.
#[derive(Drop)]
pub(crate) struct Alike<P: Piece> {
    pub piece: P,
}

impl<P: Piece> Store for Alike<P> {
    ghost packed = { λ s. P.width s.piece };

    ghost width = { λ s. P.width s.piece };

    ghost restored = { λ s bytes. P.image s.piece bytes };

    fn packed(&self) -> usize {
        self.piece.width()
    }

    fn width(&self) -> usize {
        self.piece.width()
    }

    fn store(&self, image: &[u8], out: &mut [u8]) {
        self.piece.put(image, out);
    }
}

/// An element that has fewer bytes in external32 than in memory.
#[derive(Drop)]
pub(crate) struct Widened {
    pub kind: Kind,
}

impl Store for Widened {
    ghost packed = { λ s. external_size s.kind };

    ghost width = { λ s. native_size s.kind };

    ghost restored = { λ s bytes. restore External32 s.kind bytes };

    fn packed(&self) -> usize {
        self.kind.ext_size() as usize
    }

    fn width(&self) -> usize {
        self.kind.size() as usize
    }

    fn store(&self, image: &[u8], out: &mut [u8]) {
        let element = restore(Rep::External32, self.kind, image);
        out.copy_from_slice(element.as_slice());
    }
}
