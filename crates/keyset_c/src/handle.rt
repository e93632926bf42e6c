//! What C holds of a session.
ghost use Rattle.std.specs.Prelude.{◌≡◌, Some, None, IfNone, IfSome, is_some};
ghost use Rattle.std.specs.Borrow.{sem};
ghost use Rattle.keyset_c.specs.Handles.{IsWhole, kept_by};

use crate::box_parts::BoxParts;
use crate::open_session::OpenSession;
use crate::pointer::Pointer;
use std::alloc::Global;
use std::mem;

/// What C holds of a session. A closed session is all zeros.
#[repr(C)]
#[derive(Drop)]
pub struct Handle {
    pointer: Pointer,
    is_open: bool,
}

impl Handle {
    ghost use Rattle.keyset_c.specs.Lent.{lends_if_open};

    /// Whether the session that C holds is open. It changes nothing.
    pub(crate) fn is_open(&self) -> bool
        requires { IsWhole self.now }
        ensures { result ≡ is_some (kept_by self.now) }
    {
        self.is_open
    }

    /// A reference to what an open session keeps, or `None` if the session is closed. What is
    /// written through it stays in the session, and it remains open.
    pub(crate) fn look(&mut self) -> Option<&mut OpenSession>
        requires { IsWhole self.old }
        ensures* writes_back { sem 𝓛 (lends_if_open self.entry result) }
        ensures value { IfSome result (λ kept. kept_by self.old ≡ Some kept.now) }
        ensures none { IfNone result (kept_by self.old ≡ None) }
    {
        if self.is_open {
            Some(self.pointer.look())
        } else {
            None
        }
    }

    /// Takes out what an open session keeps, and leaves the session closed. `None` if it was closed
    /// before. `alloc` is the allocator of the box, and no memory is taken or freed.
    pub(crate) fn take(&mut self, alloc: Global) -> Option<Box<OpenSession>>
        requires { IsWhole self.old }
        ensures whole { IsWhole self.new }
        ensures taken { IfSome result (λ kept. kept_by self.old ≡ Some kept.value) }
        ensures closed { IfNone result (kept_by self.old ≡ None) }
        ensures none { kept_by self.new ≡ None }
    {
        if self.is_open {
            let pointer = mem::replace(&mut self.pointer, Pointer::none());
            self.is_open = false;
            Some(pointer.into_parts(alloc).into_box())
        } else {
            None
        }
    }

    /// Opens a closed session, which then keeps the contents of the box. No memory is taken.
    pub(crate) fn put(&mut self, kept: Box<OpenSession>)
        requires { kept_by self.old ≡ None }
        ensures whole { IsWhole self.new }
        ensures kept { kept_by self.new ≡ Some kept.value }
    {
        self.pointer = Pointer::of_parts(BoxParts::of(kept));
        self.is_open = true;
    }
}
