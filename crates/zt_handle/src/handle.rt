// The handle of a value.
ghost use Rattle.std.specs.Prelude.{◌≡◌, Option, None, Some, option_map};
ghost use Rattle.zt_engine.specs.declared.engine.Engine.{Engine};
ghost use Rattle.zt_handle.specs.Owned.{owned};

use crate::raw_box::RawBox;
use std::alloc::Global;
use std::marker::Model;
use std::{mem, ptr};
use zt_engine::Engine;

/// An engine in memory of its own, or none, as two fields that a C program can keep between calls.
/// One whose bytes are zero holds none. What it holds isn't freed where it is let go.
#[repr(C)]
pub struct Handle {
    at: *mut u8,
    there: bool,
    pub ghost value: { Option Engine },
}

impl Model for Handle {
    ghost also_owns = { λ h. owned h.there h.at h.value };
}

impl Handle {
    // One that holds what the parts own.
    fn of(parts: RawBox<Engine, Global>) -> Handle
        ensures { result.value ≡ Some parts.value }
    {
        let RawBox { ptr, alloc } = parts;
        let _ = alloc;
        Handle {
            at: ptr as *mut u8,
            there: true,
        }
    }

    // What it holds, where it holds something.
    fn into_parts(self, alloc: Global) -> Option<RawBox<Engine, Global>>
        ensures { option_map (λ parts. parts.value) result ≡ self.value }
    {
        let Handle { at, there } = self;
        if there {
            let ptr = at as *mut Engine;
            Some(RawBox { ptr, alloc })
        } else {
            None
        }
    }

    // One that holds nothing.
    fn none() -> Handle
        ensures { result.value ≡ None }
    {
        Handle {
            at: ptr::null_mut(),
            there: false,
        }
    }

    /// Takes out what it holds, which leaves one that holds nothing.
    pub fn take(&mut self, alloc: Global) -> Option<Box<Engine>>
        ensures left { self.new.value ≡ None }
        ensures taken { option_map (λ boxed. boxed.value) result ≡ self.old.value }
    {
        let whole = mem::replace(self, Handle::none());
        match whole.into_parts(alloc) {
            None => None,
            Some(parts) => Some(parts.into_box()),
        }
    }

    /// Makes it hold an engine. One that it held is freed.
    pub fn put(&mut self, alloc: Global, engine: Box<Engine>)
        ensures { self.new.value ≡ Some engine.value }
    {
        let whole = mem::replace(self, Handle::of(RawBox::of(engine)));
        if let Some(parts) = whole.into_parts(alloc) {
            let _ = parts.into_box();
        }
    }
}
