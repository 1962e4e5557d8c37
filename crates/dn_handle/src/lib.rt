//! A handle that C keeps of a session: null, or a pointer to a session that the handle owns.
//!
//! ```text
//! let handle = Handle::of(session);      // owns the boxed session
//! let session = handle.take(alloc);      // Some(session), and the handle is closed
//! let none = handle.take(alloc);         // None
//! ```
//!
//! Null is a closed handle, so a handle of C begins as zeros, and a second close does nothing. C
//! may move the struct. It must not use two copies of it, which no proof can see.
#![tactic(auto)]

ghost use Rattle.std.specs.Prelude.{◌≡◌, None, Some, option_map};
ghost use Rattle.std.specs.declared.option.Option.{Option};
ghost use Rattle.dn_session.specs.declared.session.Session.{Session};
ghost use Rattle.dn_handle.specs.Handle.{handle_owns};

use dn_held::Loose;
use dn_session::session::Session;
use std::alloc::Global;
use std::marker::Model;
use std::mem;
use std::ptr::null_mut;

/// What C keeps of a session: one word, which is null where there is none. The handle owns its session.
#[repr(C)]
#[derive(Drop)]
pub struct Handle {
    at: *mut u8,
    pub ghost held: { Option Session },
}

impl Model for Handle {
    ghost also_owns = { λ h. handle_owns h.at h.held };
}

impl Handle {
    /// A handle without a session.
    pub fn closed() -> Handle
        ensures { result.held ≡ None }
    {
        Handle { at: null_mut() }
    }

    /// A handle with this session.
    pub fn of(session: Box<Session>) -> Handle
        ensures { result.held ≡ Some session.value }
    {
        Handle::of_loose(Loose::of(session))
    }

    /// Takes the session out, where there is one, and leaves the handle without one.
    pub fn take(&mut self, alloc: Global) -> Option<Box<Session>>
        ensures taken { option_map (λ b. b.value) result ≡ self.old.held }
        ensures left { self.new.held ≡ None }
    {
        mem::replace(self, Handle::closed()).into_box(alloc)
    }

    /// The session that the handle had.
    fn into_box(self, alloc: Global) -> Option<Box<Session>>
        ensures { option_map (λ b. b.value) result ≡ self.held }
    {
        match self.into_loose(alloc) {
            Some(loose) => Some(loose.into_box()),
            None => None,
        }
    }

    /// A handle with what a box owned.
    fn of_loose(loose: Loose<Session, Global>) -> Handle
        ensures { result.held ≡ Some loose.value }
    {
        let Loose { at, alloc: _heap } = loose;
        Handle { at: at.cast() }
    }

    /// What a box owned.
    fn into_loose(self, alloc: Global) -> Option<Loose<Session, Global>>
        ensures { option_map (λ l. l.value) result ≡ self.held }
    {
        let Handle { at } = self;
        if at.is_null() {
            return None;
        }
        Some(Loose {
            at: at.cast(),
            alloc,
        })
    }
}
