//! By which records names in units go on.

use crate::records::Records;
use crate::system::System;
use dn_kind::rights::Access;
use dn_tables::set::TableSet;

/// By which records names go on through the units of a system under tables, and for which access.
#[derive(Clone, Copy)]
pub(crate) struct Course<'a> {
    pub(crate) system: System<'a>,
    pub(crate) tables: &'a TableSet,
    pub(crate) records: Records<'a>,
    pub(crate) access: Access,
}
