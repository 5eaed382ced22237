//! A manager as C holds it.

ghost use Rattle.std.specs.Prelude.{◌≡◌, ◌≢◌, None, Option, Some, is_none};
ghost use Rattle.std.specs.Borrow.{sem};
ghost use Rattle.std.specs.Option.{option_copied_mut, option_map};
ghost use Rattle.std.specs.Box.{box_value};
ghost use Rattle.pim_c.specs.Ownership.{raw_value};
ghost use Rattle.pim_manager.specs.Changed.{TrackedState};

use crate::raw_box::RawBox;
use pim_manager::TrackedManager;
use std::alloc::Global;
use std::marker::Model;
use std::mem::{forget, replace};
use std::ptr::null_mut;

/// A pointer to a manager, or null. C must not copy it, nor read what it points to.
///
/// In contracts `held` is what it points to. In Rattle a handle that goes out of scope frees its manager; C calls
/// `pim_drop`.
#[repr(C)]
pub struct Handle {
    at: *mut u8,
    alloc: Global,
    pub ghost held: { Option TrackedState },
}

impl Model for Handle {
    ghost use Rattle.pim_c.specs.Ownership.{owns_held};
    ghost use Rattle.pim_manager.specs.Changed.{TrackedState};

    ghost also_owns = { λ h. owns_held h.alloc h.held h.at };
}

impl Drop for Handle {
    fn drop(self) {
        if let Some(raw) = self.into_raw() {
            drop(raw.into_box());
        }
    }
}

impl Handle {
    ghost use Rattle.pim_c.specs.Lending.{lends_get, lends_held};

    /// Returns a handle without a manager.
    pub fn empty(alloc: Global) -> Handle
        ensures { result.held ≡ None }
    {
        Handle {
            at: null_mut(),
            alloc,
        }
    }

    /// Puts a manager into an empty handle.
    // A plain assignment would test at run time whether there is a manager to drop. It is proved that there is none.
    #[inline(always)]
    pub fn put(&mut self, held: Box<TrackedManager, Global>)
        requires { self.old.held ≡ None }
        ensures { self.new.held ≡ Some held.value }
    {
        forget(replace(self, Handle::from_raw(RawBox::of(held))));
    }

    /// Takes the manager out, if there is one.
    pub fn take(&mut self, alloc: Global) -> Option<Box<TrackedManager, Global>>
        ensures held { option_map box_value result ≡ self.old.held }
        ensures empty { self.new.held ≡ None }
    {
        let raw = replace(self, Handle::empty(alloc)).into_raw()?;
        Some(raw.into_box())
    }

    /// Returns the manager, if there is one. It stays in the handle.
    pub fn get_mut(&mut self) -> Option<&mut TrackedManager>
        ensures* writes_back { sem 𝓛 (lends_get self.entry result) }
        ensures value { option_copied_mut result ≡ self.old.held }
    {
        if self.is_empty() {
            return None;
        }
        Some(self.held_mut())
    }

    /// Returns whether there is no manager.
    // A `&Handle` would show nothing of the handle: C may only be given a struct whose `Model` has no `also_shares`.
    fn is_empty(&mut self) -> bool
        ensures empty { result ≡ is_none self.old.held }
        ensures same { self.new ≡ self.old }
    {
        let at = self.at;
        at.is_null()
    }

    /// Returns the manager. It stays in the handle.
    fn held_mut(&mut self) -> &mut TrackedManager
        requires { self.old.held ≢ None }
        ensures* writes_back { sem 𝓛 (lends_held self.entry result) }
        ensures value { Some result.now ≡ self.old.held }
    {
        let at = self.at as *mut TrackedManager;
        unsafe { &mut *at }
    }

    /// Returns the handle of this manager.
    fn from_raw(raw: RawBox<TrackedManager, Global>) -> Handle
        ensures { result.held ≡ Some raw.value }
    {
        let RawBox { at, alloc } = raw;
        Handle {
            at: at as *mut u8,
            alloc,
        }
    }

    /// Returns the manager of this handle, if there is one.
    fn into_raw(self) -> Option<RawBox<TrackedManager, Global>>
        ensures { option_map raw_value result ≡ self.held }
    {
        let Handle { at, alloc } = self;
        if at.is_null() {
            None
        } else {
            let at = at as *mut TrackedManager;
            Some(RawBox { at, alloc })
        }
    }
}
