//! The arguments that made a datatype (MPI 4.1, section 5.1.13).
ghost use Rattle.std.specs.Prelude.{◌≡◌, false, Decides, MatchResult};
ghost use Rattle.dt_form.specs.Contents.{contents_of};
ghost use Rattle.dt_type.specs.Basic.{is_basic};
ghost use Rattle.dt_type.specs.Datatype.{form_of};
ghost use Rattle.dt_numbered.specs.Contents.{IsContentsAnswer, IsUnlisted, lengths_in, lists_of, Fit};

use crate::filling::put_front;
use crate::olds::number_all;
use dt_space::{Space, SpaceFault, TypeNumber};
use dt_type::{Contents, ContentsFault, Datatype};
use std::alloc::Global;

/// How many integers, addresses and datatypes contents list.
#[repr(C)]
#[derive(Clone, Copy, Debug, PartialEq, Eq, Drop)]
pub struct ContentsLengths {
    pub integers: u64,
    pub addresses: u64,
    pub types: u64,
}

/// How long the lists of contents are.
fn lengths_of(lists: &Contents) -> ContentsLengths
    ensures { result ≡ lengths_in lists.now }
{
    ContentsLengths {
        integers: lists.integers.len() as u64,
        addresses: lists.addresses.len() as u64,
        types: lists.types.len() as u64,
    }
}

/// Whether lists of so many members have room for contents.
fn fit(lengths: &ContentsLengths, integers: usize, addresses: usize, types: usize) -> bool
    ensures { Decides result (Fit lengths.now integers addresses types) }
{
    lengths.integers <= integers as u64
        && lengths.addresses <= addresses as u64
        && lengths.types <= types as u64
}

/// The contents of a datatype that isn't basic.
fn listed(alloc: Global, ty: &Datatype) -> Result<Contents, SpaceFault>
    ensures { MatchResult result (λ lists. (is_basic ty.now ≡ false) × (lists ≡ contents_of (form_of ty.now))) (IsUnlisted ty.now) }
{
    match ty.contents(alloc) {
        Ok(lists) => Ok(lists),
        Err(ContentsFault::Named) => Err(SpaceFault::Basic),
        Err(ContentsFault::NoMemory) => Err(SpaceFault::NoMemory),
    }
}

/// `MPI_Type_get_contents`: puts the integers, the addresses and the old types of the constructor that made a datatype to the front of three
/// lists, and how many there are into `lengths`. A basic old type has its own number, any other a new one. `NoSuchType` exactly where the
/// number stands for nothing, `Basic` exactly where the datatype is basic; `NoRoom` exactly where a list is too short, and then only `lengths`
/// is set; `Spent` exactly where they have room
/// and fewer numbers are left than the old types that aren't basic need. After a refusal each number stands for what it did.
pub fn contents(
    space: &mut Space,
    alloc: Global,
    number: TypeNumber,
    integers: &mut [i64],
    addresses: &mut [i64],
    types: &mut [TypeNumber],
    lengths: &mut ContentsLengths,
) -> Result<(), SpaceFault>
    ensures { IsContentsAnswer space.old space.new number (lists_of integers.old addresses.old types.old) (lists_of integers.new addresses.new types.new) lengths.old lengths.new result }
{
    let kept = match space.kept(alloc, number) {
        Ok(kept) => kept,
        Err(fault) => return Err(fault),
    };
    let lists = match listed(alloc, &kept.ty) {
        Ok(lists) => lists,
        Err(fault) => return Err(fault),
    };
    let needed = lengths_of(&lists);
    if !fit(&needed, integers.len(), addresses.len(), types.len()) {
        *lengths = needed;
        return Err(SpaceFault::NoRoom);
    }
    let numbers = match number_all(space, alloc, lists.types.as_slice()) {
        Ok(numbers) => numbers,
        Err(fault) => return Err(fault),
    };
    *lengths = needed;
    put_front(integers, lists.integers.as_slice());
    put_front(addresses, lists.addresses.as_slice());
    put_front(types, &numbers);
    Ok(())
}
