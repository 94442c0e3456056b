//! What a type word stands for, told outside.
ghost use Rattle.std.specs.Prelude.{◌≡◌, true};
ghost use Rattle.dt_names.specs.Found.{IsFoundIn, IsFoundType};
ghost use Rattle.dt_script.specs.Name.{begins_with_mpi};

use crate::types::Types;
use dt_kinds::{Kind, KindFault};
use dt_script::Name;
use dt_type::{Datatype, FormOf};

/// The number of the refusal of an unknown name.
const UNKNOWN_NAME: u8 = 2;

/// The number of the refusal of a kind that is left out.
const UNSUPPORTED_KIND: u8 = 4;

/// What a type word stands for: a basic type, or a type that a constructor made.
#[derive(Clone, Copy)]
pub enum Found<'a> {
    Basic(Kind),
    Derived(&'a Datatype),
}

/// A datatype, told by its kind where it is basic.
fn found_of(ty: &Datatype) -> Found<'_>
    ensures { IsFoundIn ty.now result }
{
    match ty.form() {
        FormOf::Named(kind) => Found::Basic(*kind),
        _ => Found::Derived(ty),
    }
}

impl Types {
    /// The kind that a word names that begins as the names of MPI do.
    fn find_kind(&self, word: &[u8]) -> Result<Found<'_>, u8>
        requires { begins_with_mpi word.now ≡ true }
        ensures { IsFoundType self.now.entries word.now result }
    {
        match Kind::of_name(word) {
            Ok(kind) => Ok(Found::Basic(kind)),
            Err(KindFault::Unsupported) => Err(UNSUPPORTED_KIND),
            Err(KindFault::Unknown) => Err(UNKNOWN_NAME),
        }
    }

    /// What a type word stands for, or the number of the refusal of a command that uses it: 2 where it is unknown or no name at all, 4
    /// where it is the name of a datatype that is left out. It takes no memory.
    pub fn find(&self, word: &[u8]) -> Result<Found<'_>, u8>
        ensures { IsFoundType self.now.entries word.now result }
    {
        let Some(name) = Name::new(word) else {
            return Err(UNKNOWN_NAME);
        };
        if name.is_reserved() {
            return self.find_kind(word);
        }
        match self.get(&name) {
            Some(held) => Ok(found_of(held.ty)),
            None => Err(UNKNOWN_NAME),
        }
    }
}
