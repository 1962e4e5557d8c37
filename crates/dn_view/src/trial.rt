//! A placement that is tried for an access.

use crate::system::System;
use dn_kind::rights::Access;
use dn_placement::request::Request;
use dn_tables::placement::Placement;
use dn_tables::set::TableSet;

/// A placement of a request that is tried in a system under tables, for an access.
#[derive(Clone, Copy)]
pub(crate) struct Trial<'a> {
    pub(crate) system: System<'a>,
    pub(crate) tables: &'a TableSet,
    pub(crate) request: &'a Request,
    pub(crate) placement: &'a Placement,
    pub(crate) access: Access,
}
