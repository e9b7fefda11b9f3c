//! What C keeps of a connection: a pointer to it whose type C does not see. Definitions: `specs/Kept.antt`.

ghost use Rattle.std.specs.Prelude.{◌≡◌, Option, Some, None, is_some, true};
ghost use Rattle.std.specs.Coded.{coded_option};
ghost use Rattle.h2_embed.specs.Hold.{hold_owns, kept_coded};
ghost use Rattle.h2_embed.specs.declared.kept.KeptConnection.{KeptConnection};

use crate::kept::KeptConnection;
use crate::parts::Parts;
use std::alloc::Global;
use std::marker::Model;
use std::ptr;

/// Holds a connection that stays between calls, or nothing. It is no `Drop`, so that none is let go while it holds one.
#[repr(C)]
pub struct Hold {
    ptr: *mut u8,
    alloc: Global,
    pub ghost kept: { Option KeptConnection } by { coded_option kept_coded },
}

impl Model for Hold {
    ghost also_owns = { λ h. hold_owns h.alloc h.ptr h.kept };
}

impl Hold {
    /// Holds nothing.
    pub(crate) fn none(alloc: Global) -> Hold
        ensures { result.kept ≡ None }
    {
        Hold {
            ptr: ptr::null_mut(),
            alloc,
        }
    }

    /// Holds the connection of these parts.
    pub(crate) fn of_parts(parts: Parts<KeptConnection, Global>) -> Hold
        ensures { result.kept ≡ Some parts.value }
    {
        let Parts { ptr, alloc } = parts;
        Hold {
            ptr: ptr as *mut u8,
            alloc,
        }
    }

    /// The parts of what is held.
    pub(crate) fn into_parts(self) -> Parts<KeptConnection, Global>
        requires { is_some self.kept ≡ true }
        ensures { Some result.value ≡ self.kept }
    {
        let Hold { ptr, alloc } = self;
        Parts {
            ptr: ptr as *mut KeptConnection,
            alloc,
        }
    }

    /// Lets a hold of nothing go.
    pub(crate) fn end(self)
        requires { self.kept ≡ None }
    {
        let Hold { ptr: _, alloc: _ } = self;
    }
}
