//! Pieces whose bytes are turned: the last one first, as an element stands in external32 (MPI 4.1, section 14.5.2).
ghost use Rattle.std.specs.Prelude.{reverse};

use crate::piece::Piece;

/// Two bytes, the last one first.
#[derive(Drop)]
pub(crate) struct TwoTurned;

impl Piece for TwoTurned {
    ghost width = { λ p. 2 };

    ghost image = { λ p bytes. reverse bytes };

    fn width(&self) -> usize {
        2
    }

    fn put(&self, bytes: &[u8], out: &mut [u8]) {
        let (a, b) = (bytes[0], bytes[1]);
        out[0] = b;
        out[1] = a;
    }
}

/// Four bytes, the last one first.
#[derive(Drop)]
pub(crate) struct FourTurned;

impl Piece for FourTurned {
    ghost width = { λ p. 4 };

    ghost image = { λ p bytes. reverse bytes };

    fn width(&self) -> usize {
        4
    }

    fn put(&self, bytes: &[u8], out: &mut [u8]) {
        let (a, b, c, d) = (bytes[0], bytes[1], bytes[2], bytes[3]);
        out[0] = d;
        out[1] = c;
        out[2] = b;
        out[3] = a;
    }
}

/// Eight bytes, the last one first.
#[derive(Drop)]
pub(crate) struct EightTurned;

impl Piece for EightTurned {
    ghost width = { λ p. 8 };

    ghost image = { λ p bytes. reverse bytes };

    fn width(&self) -> usize {
        8
    }

    fn put(&self, bytes: &[u8], out: &mut [u8]) {
        let (a, b, c, d) = (bytes[0], bytes[1], bytes[2], bytes[3]);
        let (e, f, g, h) = (bytes[4], bytes[5], bytes[6], bytes[7]);
        out[0] = h;
        out[1] = g;
        out[2] = f;
        out[3] = e;
        out[4] = d;
        out[5] = c;
        out[6] = b;
        out[7] = a;
    }
}
