//! Nets for tests, made by calls.
//!
//! The crates whose tests use them know no texts of the language. A [`plan::Plan`] has nodes with
//! their parts, and gives a net once all rules are kept, so that whoever has that net may ask what its
//! calls require. The kinds of its units are those of [`sure_kinds`].
//!
//! Under test alone stand the tests of what lies below tables and texts.
#![tactic(auto)]

pub mod plan;
#[cfg(test)]
mod tests;
pub mod unmade;

pub use plan::{Plan, bare_node, to};
pub use unmade::Unmade;

/// The number of the kind `pages` in the list of kinds.
pub const PAGES: u8 = 0;

/// The number of the kind `remap`.
pub const REMAP: u8 = 1;

/// The number of the kind `vectors`.
pub const VECTORS: u8 = 2;

/// The kinds of the program, `pages`, `remap`, `vectors` and `radix`, in a test: want of memory ends it, which leaves no way
/// out of the function that is to be proved.
#[macro_export]
macro_rules! sure_kinds {
    ($rt:expr, $alloc:expr) => {{
        dn_kinds::listed::listed_are_lawful();
        let mut kinds = dn_kind::kinds::Kinds::none($alloc);
        let pages = Box::new($alloc, dn_kinds::listed::Pages).expect($rt, "memory");
        kinds.add(pages).expect($rt, "memory");
        let remap = Box::new($alloc, dn_kinds::listed::Remap).expect($rt, "memory");
        kinds.add(remap).expect($rt, "memory");
        let vectors = Box::new($alloc, dn_kinds::listed::Vectors).expect($rt, "memory");
        kinds.add(vectors).expect($rt, "memory");
        let radix = Box::new($alloc, dn_kinds::listed::Radix).expect($rt, "memory");
        kinds.add(radix).expect($rt, "memory");
        kinds
    }};
}

/// The plan of these parts, each a call on it, in a test: what cannot be made ends it.
#[macro_export]
macro_rules! sure_plan {
    ($rt:expr, $alloc:expr; $($part:ident($($value:expr),+));+) => {{
        let mut plan = $crate::plan::Plan::new($alloc);
        $( plan.$part($($value),+).expect($rt, "a plan"); )+
        plan
    }};
}

/// Calls each of these functions, which take the runtime, its allocator and the kinds of the program.
#[macro_export]
macro_rules! run_with_kinds {
    ($rt:expr; $($check:ident),+) => {{
        let rt = $rt;
        let alloc = rt.alloc();
        let kinds = $crate::sure_kinds!(&rt, alloc);
        $( $check(&rt, alloc, &kinds); )+
    }};
}
