//! Lists of a form, read from bytes.
ghost use Rattle.std.specs.Prelude.{◌≡◌};
ghost use Rattle.dt_wire.specs.Given.{Takes};
ghost use Rattle.dt_wire.specs.Reading.{counted_at, list_at};

use crate::passing::number;
use crate::stop::Stop;
use crate::values::Field;
use sqlite_items::Items;
use std::alloc::Global;

/// So many of a list.
fn each<T: Field + Drop>(alloc: Global, bytes: &[u8], n: u32) -> Result<(Items<T>, &[u8]), Stop>
    ensures { Takes result (list_at T.read_at n bytes.now) }
{
    let mut items = Items::new(alloc);
    let mut rest = bytes;
    'items: for _ in 0..n {
        let (item, after) = T::read(rest)?;
        items.push(item)?;
        rest = after;
    }
    Ok((items, rest))
}

/// A list behind its length.
#[tactic(auto, unfolding(crate::specs::Reading::counted_at, crate::specs::Reading::bind))]
pub(crate) fn list<T: Field + Drop>(alloc: Global, bytes: &[u8]) -> Result<(Items<T>, &[u8]), Stop>
    ensures { Takes result (counted_at T.read_at bytes.now) }
{
    let (n, rest) = number(bytes)?;
    each(alloc, rest, n)
}
