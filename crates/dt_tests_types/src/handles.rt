//! Datatypes under handles.

use dt_kinds::Kind;
use dt_registry::{Handle, HandleFault, Registry};
use dt_type::Datatype;
use std::test::Fail;

/// Whether no call knows a handle.
fn is_stale(types: &mut Registry, h: Handle) -> bool {
    types.get(h).is_none()
        && types.is_committed(h).is_none()
        && types.commit(h) == Err(HandleFault::Stale)
        && types.free(h).err() == Some(HandleFault::Stale)
}

/// A slot comes back under another handle, and the first one stays without a type.
#[test]
fn a_slot_that_comes_back(rt: HostRuntime) -> Result<(), Fail> {
    let mut types = Registry::new(rt.alloc());
    let pair = dt_ctor::contiguous(rt.alloc(), 2, &Datatype::named(rt.alloc(), Kind::Int)?)?;
    let first = types.add(pair.share()?, false)?;
    assert!(rt; types.is_committed(first) == Some(false));
    drop(types.free(first)?);
    assert!(rt; is_stale(&mut types, first));
    let second = types.add(pair, true)?;
    assert!(rt; second.slot == first.slot && (first.serial, second.serial) == (0, 1));
    assert!(rt; is_stale(&mut types, first));
    assert!(rt; types.is_committed(second) == Some(true));
    assert!(rt; (types.made(), types.live()) == (2, 1));
    Ok(())
}
