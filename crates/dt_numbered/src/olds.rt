//! Numbers for the old types of a datatype: all of them, or none.
ghost use Rattle.std.specs.Prelude.{◌≡◌, ◌≤◌, List, MatchResult, length, take};
ghost use Rattle.dt_space.specs.Space.{Space};
ghost use Rattle.dt_type.specs.declared.datatype.Seen.{Seen};
ghost use Rattle.dt_numbered.specs.Numbering.{Numbers, IsUnnumbered};
ghost use Rattle.dt_numbered.specs.Olds.{AreNumbered, IsOut, StandsAs};

use crate::numbering::number_for;
use dt_space::{BASIC, Space, SpaceFault, TypeNumber};
use dt_type::Datatype;
use std::alloc::Global;

/// The number that a place has before its own.
const NONE_YET: TypeNumber = TypeNumber {
    slot: 0,
    serial: BASIC,
};

/// Takes a number that was given to a datatype away again, where the datatype isn't basic.
fn take_one(space: &mut Space, number: TypeNumber)
    ensures { (s t : Space) (ty : Seen) → Numbers s t number ty → StandsAs t space.old → StandsAs s space.new }
{
    let _freed = space.free(number);
}

/// Takes the first numbers of a list that were given to datatypes away again, the last one first.
fn take_back(space: &mut Space, numbers: &[TypeNumber], count: usize)
    requires { count ≤ length numbers.now }
    ensures { (s : Space) (ts : List Seen) → AreNumbered s space.old ts (take count numbers.now) → StandsAs s space.new }
{
    let mut left = count;
    'numbers: while left > 0 {
        left -= 1;
        take_one(space, numbers[left]);
    }
}

/// A number for one more owner of a datatype.
fn number_one(space: &mut Space, old: &Datatype) -> Result<TypeNumber, SpaceFault>
    ensures { MatchResult result (λ n. Numbers space.old space.new n old.now) (λ fault. (space.new ≡ space.old) × IsUnnumbered space.old old.now fault) }
{
    match old.share() {
        Ok(ty) => number_for(space, ty),
        Err(_) => Err(SpaceFault::NoMemory),
    }
}

/// A number for each of some datatypes. After a refusal each number stands for what it did.
pub(crate) fn number_all(
    space: &mut Space,
    alloc: Global,
    olds: &[Datatype],
) -> Result<Vec<TypeNumber>, SpaceFault>
    ensures { MatchResult result (λ ns. AreNumbered space.old space.new olds.now ns.items) (λ fault. StandsAs space.old space.new × IsOut space.old olds.now fault) }
{
    let mut numbers = match vec![in alloc; NONE_YET; olds.len()] {
        Ok(numbers) => numbers,
        Err(_) => return Err(SpaceFault::NoMemory),
    };
    'olds: for k in 0..olds.len() {
        match number_one(space, &olds[k]) {
            Ok(number) => numbers[k] = number,
            Err(fault) => {
                take_back(space, &numbers, k);
                return Err(fault);
            }
        }
    }
    Ok(numbers)
}
