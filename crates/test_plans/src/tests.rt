//! Tests of what lies below tables and texts: `streams` of `dn_base`, `parts` of `dn_interval` and `dn_token`,
//! `kinds` of `dn_kind` and `dn_kinds`, `radix` of `dn_radix`, and `demo` of `dn_demo`.

mod demo;
mod kinds;
mod parts;
mod radix;
mod streams;
