//! A space behind a pointer, as C holds it.
ghost use Rattle.std.specs.Prelude.{◌≡◌, ◌≢◌, Option, Some, None};
ghost use Rattle.dt_c.specs.Owned.{option_code};
ghost use Rattle.dt_space.specs.Space.{Space};

use crate::parts::Parts;
use dt_space::Space;
use std::alloc::Global;
use std::marker::Model;

/// A pointer to a space that it owns, or to nothing.
#[repr(C)]
#[derive(Drop)]
pub struct Held {
    ptr: *mut u8,
    alloc: Global,
    pub ghost space: { Option Space } by { option_code },
}

impl Model for Held {
    ghost use Rattle.dt_c.specs.Owned.{space_owns};

    ghost also_owns = { λ h. space_owns h.alloc h.ptr h.space };
}

impl Held {
    /// Nothing.
    pub fn nothing(alloc: Global) -> Held
        ensures { result.space ≡ None }
    {
        Held {
            ptr: std::ptr::null_mut(),
            alloc,
        }
    }

    /// A space in memory of its own.
    fn of_parts(parts: Parts<Space, Global>) -> Held
        ensures { result.space ≡ Some parts.value }
    {
        let Parts { ptr, alloc } = parts;
        Held {
            ptr: ptr as *mut u8,
            alloc,
        }
    }

    /// The space.
    fn into_parts(self) -> Parts<Space, Global>
        requires { self.space ≢ None }
        ensures { self.space ≡ Some result.value }
    {
        let Held { ptr, alloc } = self;
        Parts {
            ptr: ptr as *mut Space,
            alloc,
        }
    }

    /// A space in memory of its own.
    pub fn of(space: Box<Space>) -> Held
        ensures { result.space ≡ Some space.value }
    {
        Held::of_parts(Parts::of(space))
    }

    /// The space.
    pub fn into_box(self) -> Box<Space>
        requires { self.space ≢ None }
        ensures { self.space ≡ Some result.value }
    {
        self.into_parts().into_box()
    }
}
