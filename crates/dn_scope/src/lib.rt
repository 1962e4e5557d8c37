//! What stands for the words of a body while a text is expanded: parameters, loop variables, full
//! names.
//!
//! `dn_module` expands a text by these; nothing else calls them.
//!
//! ```text
//! let mut scope = Scope::outside(alloc);
//! scope.enter("i", 3)?;                        // a loop variable and its number
//! let last = values::value(&scope, &expr)?;    // the value of an expression, or which flaw it has
//! scope.leave();
//! ```
//!
//! [`values`] has the values of expressions and the full names under a [`scope`], [`uses`] makes
//! the use of a module, and [`stack`] keeps what is still to be done in the uses and loops that are
//! open. Each value and name is the one that replacing text would give.
#![tactic(auto)]

pub mod fault;
pub mod modules;
pub mod names;
pub mod recent;
pub mod scope;
pub mod scoped;
pub mod stack;
pub mod text_table;
pub mod titles;
pub mod uses;
pub mod values;
pub mod words;
