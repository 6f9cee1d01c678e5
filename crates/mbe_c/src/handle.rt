// A handle to a macro that a caller keeps from call to call. The handle is in memory of the caller;
// the macro that it owns is in memory of the library.
ghost use Rattle.std.specs.Prelude.{◌≡◌, Option, Some, None, option_map};
ghost use Rattle.std.specs.Box.{box_value};
ghost use Rattle.mbe_c.specs.HandleOwnership as spec;

use crate::raw_box::RawBox;
use mbe_program::replies::kept_macro::KeptMacro;
use std::alloc::Global;
use std::marker::Model;

// The state of a handle that has a macro: the bytes of `mbemacro`, the first lowest. Any other
// state means that the handle has none.
const MACRO_STATE: u64 = 0x6F72_6361_6D65_626D;

/// `mbe_macro`. A caller initializes it with zeros. A handle that has a macro must not be copied;
/// of two copies only one may be used.
#[repr(C)]
pub struct MacroHandle {
    at: *mut u8,
    state: u64,
    // It takes no bytes.
    alloc: Global,
    pub ghost held: { Option spec.HeldMacro } by { spec.coded_held },
}

impl Model for MacroHandle {
    ghost also_owns = { λ m. spec.handle_owns m.alloc m.at m.state m.held };
}

impl MacroHandle {
    // Returns a handle without a macro.
    pub(crate) fn none(alloc: Global) -> MacroHandle
        ensures { result.held ≡ None }
    {
        MacroHandle {
            at: std::ptr::null_mut(),
            state: 0,
            alloc,
        }
    }

    // Returns a handle with the macro in the block.
    fn from_raw_box(block: RawBox<KeptMacro<Global>, Global>) -> MacroHandle
        ensures { result.held ≡ Some block.value }
    {
        let RawBox { ptr, alloc } = block;
        MacroHandle {
            at: ptr as *mut u8,
            state: MACRO_STATE,
            alloc,
        }
    }

    // Returns the block of the macro, if there is one.
    fn into_raw_box(self) -> Option<RawBox<KeptMacro<Global>, Global>>
        ensures { option_map (λ b. b.value) result ≡ self.held }
    {
        let MacroHandle { at, state, alloc } = self;
        if state != MACRO_STATE {
            return None;
        }
        let ptr = at as *mut KeptMacro<Global>;
        Some(RawBox { ptr, alloc })
    }

    // Returns the macro, if there is one.
    fn into_box(self) -> Option<Box<KeptMacro<Global>>>
        ensures { option_map box_value result ≡ self.held }
    {
        match self.into_raw_box() {
            Some(block) => Some(block.into_box()),
            None => None,
        }
    }

    // Takes the macro out, if there is one, and leaves none.
    pub(crate) fn take(&mut self, alloc: Global) -> Option<Box<KeptMacro<Global>>>
        ensures taken { option_map box_value result ≡ self.old.held }
        ensures none { self.new.held ≡ None }
    {
        std::mem::replace(self, MacroHandle::none(alloc)).into_box()
    }

    // Puts a macro in, and drops the one that was there.
    pub(crate) fn put(&mut self, held: Box<KeptMacro<Global>>)
        ensures { self.new.held ≡ Some held.value }
    {
        drop(std::mem::replace(self, MacroHandle::from_raw_box(RawBox::of(held))));
    }
}

impl Drop for MacroHandle {
    fn drop(self) {
        drop(self.into_box());
    }
}
