//! A handle.

ghost use Rattle.std.specs.Prelude.{◌≡◌, Option, Some, None, MatchOption};
ghost use Rattle.kehtrop_c.specs.declared.inner.Inner.{Inner};
ghost use Rattle.kehtrop_c.specs.contracts.inner.Inner.{the_row};
ghost use Rattle.kehtrop_c.specs.Held.{held_box};

use crate::inner::Inner;
use crate::loose::Loose;
use std::alloc::Global;
use std::marker::Model;
use std::mem::replace;
use std::ptr::null_mut;

/// A handle: the pointer of a box, or null. C sees the pointer alone, and no type behind it.
#[repr(C)]
pub struct Handle {
    at: *mut u8,
    pub ghost value: { Option Inner },
}

impl Model for Handle {
    ghost also_owns = { λ h. held_box the_row h.at h.value };
}

impl Handle {
    // Of nothing.
    fn empty() -> Handle
        ensures { result.value ≡ None }
    {
        Handle { at: null_mut() }
    }

    // Of a box.
    fn of(node: Loose<Inner, Global>) -> Handle
        ensures { result.value ≡ Some node.value }
    {
        let Loose { at, alloc: _ } = node;
        Handle { at: at as *mut u8 }
    }

    // The box, where there is one.
    fn into_loose(self, alloc: Global) -> Option<Loose<Inner, Global>>
        ensures { MatchOption result (self.value ≡ None) (λ node. self.value ≡ Some node.value) }
    {
        let Handle { at } = self;
        if at.is_null() {
            None
        } else {
            Some(Loose {
                at: at as *mut Inner,
                alloc,
            })
        }
    }

    /// Takes what it stands for out of it.
    pub fn take(&mut self, alloc: Global) -> Option<Box<Inner>>
        ensures value { MatchOption result
            (self.old.value ≡ None) (λ node. self.old.value ≡ Some node.value) }
        ensures empty { self.new.value ≡ None }
    {
        match replace(self, Handle::empty()).into_loose(alloc) {
            Some(node) => Some(node.into_box()),
            None => None,
        }
    }

    /// Puts that in. What it stood for is freed.
    pub fn put(&mut self, alloc: Global, node: Box<Inner>)
        ensures { self.new.value ≡ Some node.value }
    {
        let was = replace(self, Handle::of(Loose::of(node)));
        match was.into_loose(alloc) {
            Some(node) => {
                let _ = node.into_box();
            }
            None => {}
        }
    }
}
