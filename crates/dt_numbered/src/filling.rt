//! Lists and texts that are put where a caller has room for them.
ghost use Rattle.std.specs.Prelude.{◌≡◌, ◌≤◌, length};
ghost use Rattle.dt_numbered.specs.Filling.{filled, IsPut};

use dt_space::SpaceFault;

/// Puts items to the front of a list that has room for them. The rest of the list stays.
pub(crate) fn put_front<T: Copy>(out: &mut [T], items: &[T])
    requires { length items.now ≤ length out.old }
    ensures { out.new ≡ filled items.now out.old }
{
    out[..items.len()].copy_from_slice(items);
}

/// Puts a text to the front of a slice that has room for it, else nothing.
pub(crate) fn put_text(out: &mut [u8], text: &[u8]) -> Result<(), SpaceFault>
    ensures { IsPut text.now out.old out.new result }
{
    if text.len() > out.len() {
        return Err(SpaceFault::NoRoom);
    }
    put_front(out, text);
    Ok(())
}
