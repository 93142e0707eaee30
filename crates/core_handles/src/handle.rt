//! A core as a pointer.

ghost use Rattle.std.specs.Prelude.{◌≡◌, None, Option, Some, option_map, true};
ghost use Rattle.std.specs.Option.{is_some};
ghost use Rattle.core_handles.specs.declared.cores.Core.{Core};
ghost use Rattle.core_handles.specs.Owning.{core_coded, handle_owns};

use crate::cores::Core;
use crate::numbers::{DONE, NO_MEMORY};
use crate::parts::Parts;
use std::alloc::Global;
use std::marker::Model;
use std::mem::replace;
use std::ptr::null_mut;

/// Owns a core, or none, by its pointer.
#[repr(C)]
pub struct Handle {
    at: *mut u8,
    alloc: Global,
    pub ghost core: { Option Core } by { core_coded },
}

impl Model for Handle {
    ghost also_owns = { λ h. handle_owns h.alloc h.at h.core };
}

impl Handle {
    /// Returns a handle of no core.
    fn none(alloc: Global) -> Handle
        ensures { result.core ≡ None }
    {
        Handle {
            at: null_mut(),
            alloc,
        }
    }

    /// Lets go of a handle of no core.
    fn discard(self)
        requires { self.core ≡ None }
    {
        let Handle { at: _, alloc: _ } = self;
    }

    /// Makes a handle of the parts of a box.
    fn of_parts(parts: Parts<Core, Global>) -> Handle
        ensures { result.core ≡ Some parts.value }
    {
        let Parts { ptr, alloc } = parts;
        Handle {
            at: ptr as *mut u8,
            alloc,
        }
    }

    /// Makes the parts of a box of the handle.
    fn into_parts(self) -> Parts<Core, Global>
        requires { is_some self.core ≡ true }
        ensures { self.core ≡ Some result.value }
    {
        let Handle { at, alloc } = self;
        Parts {
            ptr: at as *mut Core,
            alloc,
        }
    }
}

/// What a program in C holds of a core.
#[repr(C)]
pub struct CoreHandle {
    handle: Handle,
    /// There is a core.
    pub there: bool,
    pub ghost known: { there ≡ is_some handle.core },
}

impl CoreHandle {
    ghost use Rattle.core_handles.specs.Handles.{held};
    ghost use Rattle.core_handles.specs.Making.{IsPut};

    /// Returns a handle of no core.
    pub(crate) fn none(alloc: Global) -> CoreHandle
        ensures { held result ≡ None }
    {
        CoreHandle {
            handle: Handle::none(alloc),
            there: false,
        }
    }

    /// Returns a handle of this core.
    pub(crate) fn of(core: Box<Core>) -> CoreHandle
        ensures { held result ≡ Some core.value }
    {
        CoreHandle {
            handle: Handle::of_parts(Parts::of(core)),
            there: true,
        }
    }

    /// Returns the core, if there is one.
    fn open(self) -> Option<Box<Core>>
        ensures { option_map (λ core. core.value) result ≡ held self }
    {
        let CoreHandle { handle, there } = self;
        if there {
            return Some(handle.into_parts().into_box());
        }
        handle.discard();
        None
    }

    /// Takes the core out, if there is one.
    pub(crate) fn take(&mut self, alloc: Global) -> Option<Box<Core>>
        ensures taken { option_map (λ core. core.value) result ≡ held self.old }
        ensures none { held self.new ≡ None }
    {
        replace(self, CoreHandle::none(alloc)).open()
    }

    /// Puts a core into a handle of none.
    pub(crate) fn put(&mut self, core: Box<Core>)
        requires { held self.old ≡ None }
        ensures { held self.new ≡ Some core.value }
    {
        let CoreHandle { handle, there: _ } = replace(self, CoreHandle::of(core));
        handle.discard();
    }

    /// Puts a core into a handle of none. Returns `DONE`, or `NO_MEMORY`, and then there is none.
    pub(crate) fn put_new(&mut self, alloc: Global, core: Core) -> u32
        requires { held self.old ≡ None }
        ensures { IsPut core (held self.new) result }
    {
        let Ok(boxed) = Box::new(alloc, core) else {
            return NO_MEMORY;
        };
        self.put(boxed);
        DONE
    }
}
