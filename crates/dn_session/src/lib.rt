//! Sessions: a net with its live grants, which change at run time, and the events that are pending
//! for the hardware.
//!
//! ```text
//! let kinds = shipped_kinds!(alloc, Err(OutOfMemory));
//! let mut session = Session::make(alloc, &kinds, net, &walks)?;
//! let address = session.grant(alloc, 1, &request, None)?;    // Some(v): at this address
//! for event in session.pending() { .. }                      // perform them in this order
//! session.settle();
//! ```
//!
//! Each call changes the session whole, and adds its events to those that are pending; or it
//! answers an error, and nothing has changed. Under any prefix of the events of a call each name
//! resolves as before the call or as after it.
#![tactic(auto)]

/// The kinds of units that the program ships, in order: `pages`, `remap`, `vectors` and `radix`. For want of memory the
/// function that is in returns what is given.
///
/// No function may make values behind trait objects and hand them out, so each call makes its own list.
#[macro_export]
macro_rules! shipped_kinds {
    ($alloc:expr, $otherwise:expr) => {{
        dn_kinds::listed::listed_are_lawful();
        let mut kinds = dn_kind::kinds::Kinds::none($alloc);
        let Ok(pages) = Box::new($alloc, dn_kinds::listed::Pages) else {
            return $otherwise;
        };
        if kinds.add(pages).is_err() {
            return $otherwise;
        }
        let Ok(remap) = Box::new($alloc, dn_kinds::listed::Remap) else {
            return $otherwise;
        };
        if kinds.add(remap).is_err() {
            return $otherwise;
        }
        let Ok(vectors) = Box::new($alloc, dn_kinds::listed::Vectors) else {
            return $otherwise;
        };
        if kinds.add(vectors).is_err() {
            return $otherwise;
        }
        let Ok(radix) = Box::new($alloc, dn_kinds::listed::Radix) else {
            return $otherwise;
        };
        if kinds.add(radix).is_err() {
            return $otherwise;
        }
        kinds
    }};
}

mod gather;
pub mod laws;
mod room;
pub mod session;
