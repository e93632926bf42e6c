//! A box as a pointer to bytes.
ghost use Rattle.std.specs.Prelude.{◌≡◌, Option, Some, None, IsSome};
ghost use Rattle.std.specs.Borrow.{sem};
ghost use Rattle.std.specs.Coded.{coded_option};
ghost use Rattle.keyset_c.specs.declared.open_session.OpenSession.{OpenSession as Value};
ghost use Rattle.keyset_c.specs.contracts.open_session.OpenSession.{the_row};
ghost use Rattle.keyset_c.specs.Owned.{kept_owned};

use crate::box_parts::BoxParts;
use crate::open_session::OpenSession;
use std::alloc::Global;
use std::marker::Model;
use std::ptr::null_mut;

/// A pointer that is opaque to C: null, or the address that a box of `value` had.
///
/// A pointer that crosses to C may not point to a type with a vector. So this one points to bytes,
/// and the ghost value says what it owns.
#[repr(C)]
#[derive(Drop)]
pub struct Pointer {
    ptr: *mut u8,
    pub ghost value: { Option Value } by { coded_option the_row.coded },
}

impl Model for Pointer {
    ghost also_owns = { λ p. kept_owned p.ptr p.value };
}

impl Pointer {
    ghost use Rattle.keyset_c.specs.Lent.{lends_kept};

    /// The null pointer, which is that of a closed session and keeps nothing.
    pub(crate) fn none() -> Pointer
        ensures { result.value ≡ None }
    {
        Pointer { ptr: null_mut() }
    }

    /// The pointer that C holds of a box, from the parts of the box. It owns the value from now on.
    pub(crate) fn of_parts(parts: BoxParts<OpenSession, Global>) -> Pointer
        ensures { result.value ≡ Some parts.value }
    {
        let BoxParts { ptr, alloc: _ } = parts;
        Pointer {
            ptr: ptr as *mut u8,
        }
    }

    /// A reference to the value that the pointer keeps. What is written through it stays there. The
    /// pointer must not be null.
    pub(crate) fn look(&mut self) -> &mut OpenSession
        requires { IsSome self.old.value }
        ensures* writes_back { sem 𝓛 (lends_kept self.entry result) }
        ensures value { Some result.now ≡ self.old.value }
    {
        unsafe { &mut *(self.ptr as *mut OpenSession) }
    }

    /// The parts of the box that the pointer keeps, to join it again. They own the value from now
    /// on. `alloc` is the box's allocator, and the pointer must not be null.
    pub(crate) fn into_parts(self, alloc: Global) -> BoxParts<OpenSession, Global>
        requires { IsSome self.value }
        ensures { Some result.value ≡ self.value }
    {
        let Pointer { ptr } = self;
        BoxParts {
            ptr: ptr as *mut OpenSession,
            alloc,
        }
    }
}
