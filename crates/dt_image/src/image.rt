//! Images of elements, and the elements that they stand for.
ghost use Rattle.std.specs.Prelude.{◌≡◌, ◌≤◌, ◌+◌, ◌++◌, length, reverse, replicate};
ghost use Rattle.dt_kinds.specs.Image.{filler, image, restore};
ghost use Rattle.dt_kinds.specs.Kind.{native_size, packed_size};

use arrayvec::ArrayVec;
use byteorder::{BigEndian, ByteOrder, LittleEndian};
use dt_kinds::{Kind, Rep};
use std::marker::Model;

/// The bytes of one element, in memory or as they are packed: at most 8, held in place.
#[derive(Drop)]
pub struct Image {
    bytes: ArrayVec<u8, 8>,
}

impl Model for Image {
    ghost use Rattle.std.specs.Prelude.{ℕ, List, ◌≤◌, length};

    ghost Value = { List ℕ };

    ghost view = { λ a. a.bytes.items };

    ghost invariant = { λ a. length a.bytes.items ≤ 8 };
}

impl Image {
    /// The bytes, in their order.
    pub fn as_slice(&self) -> &[u8]
        ensures value { result.now ≡ self.now }
        ensures few { length self.now ≤ 8 }
    {
        self.bytes.as_slice()
    }

    /// An image of these bytes.
    fn of(bytes: &[u8]) -> Image
        requires { length bytes.now ≤ 8 }
        ensures { result ≡ bytes.now }
    {
        let mut copy = ArrayVec::new();
        'bytes: for byte in bytes {
            copy.push(*byte);
        }
        Image { bytes: copy }
    }

    /// The bytes, and after them so many times one more.
    fn followed_by(self, byte: u8, times: usize) -> Image
        requires { length self + times ≤ 8 }
        ensures { result ≡ self ++ replicate times byte }
    {
        let mut bytes = self.bytes;
        'times: for _ in 0..times {
            bytes.push(byte);
        }
        Image { bytes }
    }
}

/// The bytes of a number whose lowest byte comes first, the highest first.
#[tactic(auto, using(crate::proofs::Turned::high_from_low))]
fn highest_first(bytes: &[u8]) -> Image
    requires some { 1 ≤ length bytes.now }
    requires few { length bytes.now ≤ 8 }
    ensures { result ≡ reverse bytes.now }
{
    let number = LittleEndian::read_uint(bytes, bytes.len());
    let mut high_first = [0; 8];
    BigEndian::write_uint(&mut high_first, number, bytes.len());
    Image::of(&high_first[..bytes.len()])
}

/// The bytes of a number whose highest byte comes first, the lowest first.
#[tactic(auto, using(crate::proofs::Turned::low_from_high))]
fn lowest_first(bytes: &[u8]) -> Image
    requires some { 1 ≤ length bytes.now }
    requires few { length bytes.now ≤ 8 }
    ensures { result ≡ reverse bytes.now }
{
    let number = BigEndian::read_uint(bytes, bytes.len());
    let mut low_first = [0; 8];
    LittleEndian::write_uint(&mut low_first, number, bytes.len());
    Image::of(&low_first[..bytes.len()])
}

/// The byte that fills an external32 image up to the native size.
fn filler(kind: Kind, packed: &[u8]) -> u8
    requires { 1 ≤ length packed.now }
    ensures { result ≡ filler kind packed.now }
{
    if kind.signed() && packed[0] >= 0x80 {
        0xff
    } else {
        0
    }
}

/// The image of an element, whose bytes in memory these are (MPI 4.1, section 14.5.2): the bytes themselves, or in external32 as
/// many of the lowest ones as the external size has, the highest first. It takes no memory.
pub fn image_of(rep: Rep, kind: Kind, native: &[u8]) -> Image
    requires { length native.now ≡ native_size kind }
    ensures { result ≡ image rep kind native.now }
{
    match rep {
        Rep::Native => Image::of(native),
        Rep::External32 => highest_first(&native[..kind.ext_size() as usize]),
    }
}

/// The bytes in memory of the element that an image stands for. What an external32 image lacks of the native size is filled by its
/// sign, where the kind has one, and else by zeros. It takes no memory.
pub fn restore(rep: Rep, kind: Kind, packed: &[u8]) -> Image
    requires { length packed.now ≡ packed_size rep kind }
    ensures { result ≡ restore rep kind packed.now }
{
    match rep {
        Rep::Native => Image::of(packed),
        Rep::External32 => {
            let missing = kind.size() as usize - packed.len();
            lowest_first(packed).followed_by(filler(kind, packed), missing)
        }
    }
}
