//! What is read at once of a buffer, and what stands for it.
ghost use Rattle.std.specs.Prelude.{◌≡◌, ℕ, List, length, reverse};

/// Some bytes that are read at once, and as many that stand for them.
pub(crate) trait Piece {
    /// How many bytes there are.
    ghost width: { Self → ℕ };

    /// What stands for the bytes that were read.
    ghost image: { Self → List ℕ → List ℕ };

    fn width(&self) -> usize
        ensures { result ≡ width self.now };

    /// Puts what stands for the bytes.
    fn put(&self, bytes: &[u8], out: &mut [u8])
        requires read { length bytes.now ≡ width self.now }
        requires room { length out.old ≡ width self.now }
        ensures { out.new ≡ image self.now bytes.now };
}

/// Bytes as they are.
#[derive(Drop)]
pub(crate) struct Bytes {
    pub width: usize,
}

impl Piece for Bytes {
    ghost width = { λ p. p.width };

    ghost image = { λ p bytes. bytes };

    fn width(&self) -> usize {
        self.width
    }

    fn put(&self, bytes: &[u8], out: &mut [u8]) {
        out.copy_from_slice(bytes);
    }
}

/// One byte.
#[derive(Drop)]
pub(crate) struct One;

impl Piece for One {
    ghost width = { λ p. 1 };

    ghost image = { λ p bytes. bytes };

    fn width(&self) -> usize {
        1
    }

    fn put(&self, bytes: &[u8], out: &mut [u8]) {
        out[0] = bytes[0];
    }
}

/// Two bytes.
#[derive(Drop)]
pub(crate) struct Two;

impl Piece for Two {
    ghost width = { λ p. 2 };

    ghost image = { λ p bytes. bytes };

    fn width(&self) -> usize {
        2
    }

    fn put(&self, bytes: &[u8], out: &mut [u8]) {
        let (a, b) = (bytes[0], bytes[1]);
        out[0] = a;
        out[1] = b;
    }
}

/// Four bytes.
#[derive(Drop)]
pub(crate) struct Four;

impl Piece for Four {
    ghost width = { λ p. 4 };

    ghost image = { λ p bytes. bytes };

    fn width(&self) -> usize {
        4
    }

    fn put(&self, bytes: &[u8], out: &mut [u8]) {
        let (a, b, c, d) = (bytes[0], bytes[1], bytes[2], bytes[3]);
        out[0] = a;
        out[1] = b;
        out[2] = c;
        out[3] = d;
    }
}

/// Eight bytes.
#[derive(Drop)]
pub(crate) struct Eight;

impl Piece for Eight {
    ghost width = { λ p. 8 };

    ghost image = { λ p bytes. bytes };

    fn width(&self) -> usize {
        8
    }

    fn put(&self, bytes: &[u8], out: &mut [u8]) {
        let (a, b, c, d) = (bytes[0], bytes[1], bytes[2], bytes[3]);
        let (e, f, g, h) = (bytes[4], bytes[5], bytes[6], bytes[7]);
        out[0] = a;
        out[1] = b;
        out[2] = c;
        out[3] = d;
        out[4] = e;
        out[5] = f;
        out[6] = g;
        out[7] = h;
    }
}
